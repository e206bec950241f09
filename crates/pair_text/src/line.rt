//! Lines and fields of a text.
ghost use Rattle.std.specs.Prelude.{◌≡◌, ◌<◌, ◌^◌, ◌==◌, not, [], ◌∷◌, length, drop, position, MatchOption, if◌then◌else◌};
ghost use Rattle.std.specs.Str.Lines.{strip_carriage_return};
ghost use Rattle.ntfe_model.specs.PairText.{fields, is_blank, is_skipped, lines_of};
ghost use Rattle.pair_text.specs.Cursors.{lines_left, AreFew, line_of, fields_left};

/// A line: its number, counted from 1, and its bytes without what ends it.
#[derive(Clone, Copy)]
pub struct TextLine<'a> {
    pub number: u32,
    pub content: &'a [u8],
}

/// The lines of a text behind some lines.
#[derive(Drop)]
pub struct Lines<'a> {
    pub before: u32,
    pub rest: &'a [u8],
}

impl<'a> Lines<'a> {
    /// All lines of a text.
    pub fn new(text: &'a [u8]) -> Lines<'a>
        requires { length text.now < 2 ^ 32 }
        ensures few { AreFew result }
        ensures lines { lines_left result ≡ lines_of text.now }
    {
        Lines {
            before: 0,
            rest: text,
        }
    }

    /// Takes the next line.
    fn take_line(&mut self) -> TextLine<'a>
        requires some { 0 < length self.old.rest.now }
        requires few { AreFew self.old }
        ensures few { AreFew self.new }
        ensures shorter { length self.new.rest.now < length self.old.rest.now }
        ensures line { lines_left self.old
            ≡ (if is_skipped (fields result.content.now) then (lines_left self.new) else (line_of result ∷ lines_left self.new)) }
    {
        let length = line_end(self.rest).unwrap_or(self.rest.len());
        let (line, after) = self.rest.split_at(length);
        self.rest = without_first(after);
        self.before += 1;
        TextLine {
            number: self.before,
            content: without_return(line),
        }
    }

    /// Takes lines up to the next one that is not skipped.
    pub fn take_unskipped(&mut self) -> Option<TextLine<'a>>
        requires few { AreFew self.old }
        ensures few { AreFew self.new }
        ensures line { MatchOption result (lines_left self.old ≡ []) (λ line. lines_left self.old ≡ line_of line ∷ lines_left self.new) }
    {
        while !self.rest.is_empty() {
            let line = self.take_line();
            if !is_skipped(line.content) {
                return Some(line);
            }
        }
        None
    }
}

/// Where the first line feed stands.
pub fn line_end(bytes: &[u8]) -> Option<usize>
    ensures { result ≡ position (λ b. b == 10) bytes.now }
{
    bytes.iter().position(|byte| *byte == b'\n')
}

/// All bytes but the first.
pub fn without_first(bytes: &[u8]) -> &[u8]
    ensures { result.now ≡ drop 1 bytes.now }
{
    match bytes {
        [_, rest @ ..] => rest,
        [] => bytes,
    }
}

/// A line without the carriage return that ends it, if one does.
pub fn without_return(line: &[u8]) -> &[u8]
    ensures { result.now ≡ strip_carriage_return line.now }
{
    match line {
        [content @ .., b'\r'] => content,
        _ => line,
    }
}

/// Whether a line is skipped: it has no field, or its first field begins with `#`.
fn is_skipped(content: &[u8]) -> bool
    ensures { result ≡ is_skipped (fields content.now) }
{
    match Fields::new(content).take_field() {
        Some([b'#', ..]) | None => true,
        Some(_) => false,
    }
}

/// The fields of a line from some field on.
#[derive(Drop)]
pub struct Fields<'a> {
    pub rest: &'a [u8],
}

impl<'a> Fields<'a> {
    /// All fields of a line.
    pub fn new(content: &'a [u8]) -> Fields<'a>
        ensures { result.rest.now ≡ content.now }
    {
        Fields { rest: content }
    }

    /// Takes the next field.
    pub fn take_field(&mut self) -> Option<&'a [u8]>
        ensures { MatchOption result (fields_left self.old ≡ []) (λ field. fields_left self.old ≡ field.now ∷ fields_left self.new) }
    {
        let start = field_start(self.rest).unwrap_or(self.rest.len());
        let (_, filled) = self.rest.split_at(start);
        let length = field_end(filled).unwrap_or(filled.len());
        let (field, rest) = filled.split_at(length);
        self.rest = rest;
        if field.is_empty() { None } else { Some(field) }
    }
}

/// Whether a byte separates fields: a space or a tab.
fn is_blank(byte: u8) -> bool
    ensures { result ≡ is_blank byte }
{
    byte == b' ' || byte == b'\t'
}

/// Where the first field begins.
fn field_start(bytes: &[u8]) -> Option<usize>
    ensures { result ≡ position (λ b. not (is_blank b)) bytes.now }
{
    bytes.iter().position(|byte| !is_blank(*byte))
}

/// Where the first blank stands.
fn field_end(bytes: &[u8]) -> Option<usize>
    ensures { result ≡ position is_blank bytes.now }
{
    bytes.iter().position(|byte| is_blank(*byte))
}
