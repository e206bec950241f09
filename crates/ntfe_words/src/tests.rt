use super::*;
use ntfe_model::Push;
use std::alloc::{AllocError, Global};

const DEFAULTS: Options = Options {
    workers: 1,
    limit: None,
    width: 62,
    push: Push::Up,
    stars: false,
};

static WITHOUT_MEANING: [&[&str]; 61] = [
    &[],
    &["classes", "--limit"],
    &["faces", "--workers", "2"],
    &["demo", "6"],
    &["classes", "--workers", "17"],
    &["classes", "--limit", "1", "--limit", "2"],
    &["classes", "--workers", "1", "--workers", "1"],
    &["classes", "-x"],
    &["classes", "--limit", "-"],
    &["classes", "--push", "-x"],
    &["--"],
    &[""],
    &["Classes"],
    &["classes", "x"],
    &["classes", "-"],
    &["classes", "-1"],
    &["--help"],
    &["classes", "--help"],
    &["classes", "--limit="],
    &["classes", "--limit", "-1"],
    &["classes", "--limit", "4294967296"],
    &["classes", "--limit", "00000000001"],
    &["classes", "--limit", "0x1"],
    &["classes", "--limit=1=1"],
    &["classes", "--limit", "--", "1"],
    &["classes", "--limit", "1", "--limit", "1"],
    &["classes", "--lim", "1"],
    &["classes", "--limit", "\u{661}"],
    &["classes", "--width", "0"],
    &["classes", "--width", "00000000062"],
    &["classes", "--push"],
    &["classes", "--push", "UP"],
    &["classes", "--push=up="],
    &["classes", "--push", "sideways"],
    &["classes", "--stars="],
    &["classes", "--stars", "yes"],
    &["classes", "--no-stars"],
    &["classes", "--=1"],
    &["--", "--", "classes"],
    &["classes", "--", "--stars"],
    &["classes", "--", "-x"],
    &["--limit", "classes"],
    &["classes", "classes"],
    &["faces", "--stars"],
    &["faces", "--width", "3"],
    &["demo"],
    &["demo", "x"],
    &["demo", "+1"],
    &["demo", "1", "2"],
    &["demo", "1", "--stars"],
    &["demo", "1.0"],
    &["demo", "1", "--width", "63"],
    &["resume", "file"],
    &["classes", "--all-points"],
    &["faces", "--all-points"],
    &["certify"],
    &["cone"],
    &["flips"],
    &["classes\n"],
    &["\u{e9}"],
    &["--\u{e9}"],
];

/// The command that the words mean, if they have a meaning.
fn command(alloc: Global, words: &[&str]) -> Result<Option<Command>, AllocError> {
    let mut owned = Vec::new(alloc);
    for word in words {
        owned.push(String::from_str(alloc, word)?)?;
    }
    match read_words(alloc, owned.as_slice()) {
        Ok(command) => Ok(Some(command)),
        Err(WordFault::Usage) => Ok(None),
        Err(WordFault::Memory) => Err(AllocError),
    }
}

#[test]
fn words_without_meaning(rt: HostRuntime) -> Result<(), AllocError> {
    for words in WITHOUT_MEANING {
        let found = command(rt.alloc(), words)?;
        assert!(rt; found.is_none(), "{words:?}");
    }
    Ok(())
}

#[test]
fn words_with_meaning(rt: HostRuntime) -> Result<(), AllocError> {
    let classes = |options: Options| Command::Classes(options);
    let limited = |limit: u32| Options {
        limit: Some(limit),
        ..DEFAULTS
    };
    let all = Options {
        workers: 16,
        limit: Some(1),
        width: 62,
        push: Push::Down,
        stars: true,
    };
    let stars = Options {
        stars: true,
        ..DEFAULTS
    };
    let demo = Command::Demo {
        number: 1,
        workers: 1,
        width: 62,
    };
    let cases: [(&[&str], Command); 13] = [
        (&["classes"], classes(DEFAULTS)),
        (&["--", "classes"], classes(DEFAULTS)),
        (&["--limit", "3", "classes"], classes(limited(3))),
        (
            &["classes", "--limit", "4294967295"],
            classes(limited(4294967295)),
        ),
        (
            &[
                "classes",
                "--width=62",
                "--workers=16",
                "--push=down",
                "--stars",
                "--limit=1",
            ],
            classes(all),
        ),
        (&["--stars", "--", "classes"], classes(stars)),
        (&["--", "faces"], Command::Faces),
        (&["faces"], Command::Faces),
        (&["demo", "1"], demo),
        (&["demo", "0000000001"], demo),
        (&["--", "demo", "1"], demo),
        (&["resume", "--limit", "1"], Command::Resume(limited(1))),
        (
            &["--width", "1", "demo", "--workers=016", "5"],
            Command::Demo {
                number: 5,
                workers: 16,
                width: 1,
            },
        ),
    ];
    for (words, wanted) in cases {
        let found = command(rt.alloc(), words)?;
        assert!(rt; found == Some(wanted), "{words:?}");
    }
    Ok(())
}
