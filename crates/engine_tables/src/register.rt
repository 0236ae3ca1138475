// What the engine keeps, by value, but for the transactors and the messages, which stand in arrays of their own.
ghost use Rattle.std.specs.Prelude.{◌≡◌, ◌<◌};
ghost use Rattle.rules.specs.Refusals.{group_bits};
ghost use Rattle.engine_tables.specs.Internal.Register.{fresh_register, with_opened, with_number, without_number};

// The session's limits (transactors opened, messages waiting, checkpoints of one transactor), transactors opened, the next message
// number, messages waiting.
#[derive(Clone, Copy)]
pub struct Register {
    pub transactors: u8,
    pub messages: u8,
    pub checkpoints: u8,
    pub opened: u8,
    pub next: u16,
    pub waiting: u8,
}

impl Register {
    pub fn fresh(transactors: u8, messages: u8, checkpoints: u8) -> Register
        ensures { result ≡ fresh_register transactors messages checkpoints }
    {
        Register {
            transactors,
            messages,
            checkpoints,
            opened: 0,
            next: 0,
            waiting: 0,
        }
    }

    // One more transactor.
    pub fn with_opened(mut self) -> Register
        requires { self.opened < group_bits }
        ensures { result ≡ with_opened self }
    {
        self.opened += 1;
        self
    }

    // One more message.
    pub fn with_number(mut self) -> Register
        requires { (self.next < 65535) × (self.waiting < 255) }
        ensures { result ≡ with_number self }
    {
        self.next += 1;
        self.waiting += 1;
        self
    }

    // One less.
    pub fn without_number(mut self) -> Register
        ensures { result ≡ without_number self }
    {
        if 0 < self.waiting {
            self.waiting -= 1;
        }
        self
    }
}
