//! Who is at work on the board of a pool.

/// Who is at work on the board of a pool. No answer depends on it, only who looks for which key.
#[derive(Clone, Copy, Drop)]
pub struct Crew {
    /// The workers that have begun and not ended.
    alive: u16,
    /// Those that hold keys, as they told last.
    busy: u16,
    /// Those of them that are held back, since too many classes are found ahead of those that were written.
    held_back: u16,
    /// Whether a server has begun, which writes what is found.
    is_served: bool,
}

/// What a worker tells of itself.
#[derive(Clone, Copy, Drop)]
pub enum Told {
    /// It holds no key.
    Idle,
    /// It works the keys that it holds.
    Works,
    /// It holds keys, and waits until more classes were written.
    HeldBack,
}

impl Told {
    /// Whether it holds keys.
    fn is_busy(self) -> bool {
        !matches!(self, Told::Idle)
    }

    /// Whether it is held back.
    pub fn is_held_back(self) -> bool {
        matches!(self, Told::HeldBack)
    }
}

/// What a worker is told when it has settled what it found.
#[derive(Clone, Copy, Drop)]
pub struct News {
    /// Whether a key is open.
    pub open: bool,
    /// Whether an outcome can be handed out.
    pub ready: bool,
    /// How many classes may be found ahead of those that were written.
    pub room: u64,
    /// Whether keys were given to others.
    pub given: bool,
}

/// How many classes each worker may be ahead of those that were written: at first, and at most.
const AHEAD_FIRST: u64 = 256;

const AHEAD_MOST: u64 = 1024;

impl Crew {
    /// Nobody.
    pub const fn new() -> Crew {
        Crew {
            alive: 0,
            busy: 0,
            held_back: 0,
            is_served: false,
        }
    }

    /// Whether a worker is alive.
    pub fn has_workers(self) -> bool {
        self.alive > 0
    }

    /// How many workers hold no key, as they told last.
    pub fn idle(self) -> u16 {
        self.alive.saturating_sub(self.busy)
    }

    /// Whether a worker holds keys.
    pub fn is_busy(self) -> bool {
        self.busy > 0
    }

    /// Whether a worker holds keys and is not held back.
    pub fn is_working(self) -> bool {
        self.busy > self.held_back
    }

    /// The crew with a server.
    pub fn with_server(self) -> Crew {
        Crew {
            is_served: true,
            ..self
        }
    }

    /// The crew with one worker more.
    pub fn with_one(self) -> Crew {
        Crew {
            alive: self.alive.saturating_add(1),
            ..self
        }
    }

    /// The crew without a worker that told this last.
    pub fn without_one(self, told: Told) -> Crew {
        let rest = self.with_told(told, Told::Idle);
        Crew {
            alive: rest.alive.saturating_sub(1),
            ..rest
        }
    }

    /// The crew where a worker tells what it does, and told something else before.
    pub fn with_told(self, before: Told, now: Told) -> Crew {
        let busy = self.busy.saturating_sub(u16::from(before.is_busy()));
        let held_back = self
            .held_back
            .saturating_sub(u16::from(before.is_held_back()));
        Crew {
            busy: busy.saturating_add(u16::from(now.is_busy())),
            held_back: held_back.saturating_add(u16::from(now.is_held_back())),
            ..self
        }
    }

    /// How many more classes may be found where so many were found, and so many of them written: any number, where no
    /// server has begun, for whom a worker could wait.
    pub fn room(self, found: u64, written: u64) -> u64 {
        if !self.is_served {
            return u64::MAX;
        }
        let workers = u64::from(self.alive.max(1));
        let most = (workers * AHEAD_MOST).min((workers * AHEAD_FIRST).max(written));
        most.saturating_sub(found.saturating_sub(written))
    }
}
