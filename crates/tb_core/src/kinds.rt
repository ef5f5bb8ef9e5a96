//! States of a batch, events and kinds of moves, with their words in texts.

ghost use Rattle.std.specs.Prelude.{◌≡◌, ◌<◌};

/// The state of a batch, and of each of its sentences that is not pulled.
#[derive(Clone, Copy, PartialEq, Eq, Debug)]
pub enum State {
    Opened,
    Assigned,
    Submitted,
    Adjudicated,
    Released,
    Withdrawn,
}

impl State {
    ghost use Rattle.tb_core.specs.Words.{state_word};
    ghost use Rattle.tb_core.specs.Events.{state_place};

    /// The word for the state. Takes no memory.
    pub fn word(self) -> &'static str
        ensures { result.now ≡ state_word self }
    {
        match self {
            State::Opened => "open",
            State::Assigned => "assigned",
            State::Submitted => "submitted",
            State::Adjudicated => "adjudicated",
            State::Released => "released",
            State::Withdrawn => "withdrawn",
        }
    }

    /// Its place among the six, from 0. Takes no memory.
    pub fn place(self) -> usize
        ensures place { result ≡ state_place self }
        ensures bound { result < 6 }
    {
        match self {
            State::Opened => 0,
            State::Assigned => 1,
            State::Submitted => 2,
            State::Adjudicated => 3,
            State::Released => 4,
            State::Withdrawn => 5,
        }
    }
}

/// What moves a batch from one state to another.
#[derive(Clone, Copy, PartialEq, Eq, Debug)]
pub enum Event {
    Assign,
    Unassign,
    Submit,
    SendBack,
    Adjudicate,
    Release,
    Withdraw,
    Reopen,
}

impl Event {
    ghost use Rattle.tb_core.specs.Words.{event_word};
    ghost use Rattle.tb_core.specs.Events.{goes_to, makes_worker};

    /// The word for the event. Takes no memory.
    pub fn word(self) -> &'static str
        ensures { result.now ≡ event_word self }
    {
        match self {
            Event::Assign => "assign",
            Event::Unassign => "unassign",
            Event::Submit => "submit",
            Event::SendBack => "send-back",
            Event::Adjudicate => "adjudicate",
            Event::Release => "release",
            Event::Withdraw => "withdraw",
            Event::Reopen => "reopen",
        }
    }

    /// The state to which the event leads. Takes no memory.
    pub fn target(self) -> State
        ensures { result ≡ goes_to self }
    {
        match self {
            Event::Assign | Event::SendBack => State::Assigned,
            Event::Unassign | Event::Reopen => State::Opened,
            Event::Submit => State::Submitted,
            Event::Adjudicate => State::Adjudicated,
            Event::Release => State::Released,
            Event::Withdraw => State::Withdrawn,
        }
    }

    /// What the event makes of the worker. Takes no memory.
    pub fn worker(self) -> Worker
        ensures { result ≡ makes_worker self }
    {
        match self {
            Event::Assign => Worker::Caller,
            Event::Unassign | Event::Withdraw | Event::Reopen => Worker::Cleared,
            Event::Submit | Event::SendBack | Event::Adjudicate | Event::Release => Worker::Keep,
        }
    }
}

/// What a move records.
#[derive(Clone, Copy, PartialEq, Eq, Debug)]
pub enum Kind {
    Import,
    Step(Event),
    Correct,
    Pull,
    Restore,
}

impl Kind {
    ghost use Rattle.tb_core.specs.Words.{kind_word};

    /// The word for the kind; for an event, the event's. Takes no memory.
    pub fn word(self) -> &'static str
        ensures { result.now ≡ kind_word self }
    {
        match self {
            Kind::Import => "import",
            Kind::Step(event) => event.word(),
            Kind::Correct => "correct",
            Kind::Pull => "pull",
            Kind::Restore => "restore",
        }
    }
}

/// What an event makes of the worker of a batch.
#[derive(Clone, Copy, PartialEq, Eq, Debug)]
pub enum Worker {
    /// The worker stays.
    Keep,
    /// The user who asked becomes the worker.
    Caller,
    /// Nobody works on the batch.
    Cleared,
}
