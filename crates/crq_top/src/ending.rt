//! How a top call ends.

ghost use Rattle.std.specs.Prelude.{◌≡◌};
ghost use Rattle.crq_top.specs.Endings.{status_of, code_of};

use crq_reader::ModelFault;

/// How a top call ended, as a number from 0 in this order.
#[derive(Clone, Copy, Debug, PartialEq, Eq)]
pub enum Status {
    /// 0: the whole text was written.
    Ok,
    /// 1: the words spell none of the call's commands.
    Usage,
    /// 2: the file is no model.
    Model,
    /// 3: memory was refused, and nothing was written.
    Memory,
    /// 4: the file couldn't be read.
    Read,
    /// 5: the output couldn't be written whole.
    Write,
    /// 6: the file has more than 16,777,216 bytes.
    Long,
    /// 7: the run has more events than it may have.
    Events,
    /// 8: more events are pending after a window than the rows of a worker are for: two for each, and two.
    Rows,
}

/// How a top call ended, with what its fault line tells.
#[derive(Debug, Drop)]
pub enum Ending {
    Ok,
    Usage,
    /// The first thing that is wrong with the model.
    Model(ModelFault),
    Memory,
    Read,
    Write,
    Long,
    /// The window of the first event past the cap.
    Events(u32),
    /// The window after which the rows are too few, 0 before the first one, and how many events are pending then.
    Rows(u32, u32),
}

impl Ending {
    /// The ending without its numbers.
    pub fn status(&self) -> Status
        ensures { result ≡ status_of self.now }
    {
        match self {
            Ending::Ok => Status::Ok,
            Ending::Usage => Status::Usage,
            Ending::Model(_) => Status::Model,
            Ending::Memory => Status::Memory,
            Ending::Read => Status::Read,
            Ending::Write => Status::Write,
            Ending::Long => Status::Long,
            Ending::Events(_) => Status::Events,
            Ending::Rows(_, _) => Status::Rows,
        }
    }
}

impl Status {
    /// The number of the status.
    pub fn code(&self) -> u8
        ensures { result ≡ code_of self.now }
    {
        match self {
            Status::Ok => 0,
            Status::Usage => 1,
            Status::Model => 2,
            Status::Memory => 3,
            Status::Read => 4,
            Status::Write => 5,
            Status::Long => 6,
            Status::Events => 7,
            Status::Rows => 8,
        }
    }
}
