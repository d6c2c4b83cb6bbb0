// Why a command did not go well.
use std::alloc::{AllocError, AllocFailed};
use std::io;

#[derive(Drop)]
pub(crate) enum Fault {
    // it is refused, and these words say why
    Refused(String),
    // parts of it are refused, and of each it has been said why
    Said,
    // the machine failed: its memory, or what is printed to
    Failed(anyhow::Error),
}

impl Fault {
    // Prints why, unless that has been said; what the machine failed at is handed on.
    pub(crate) fn say(self, rt: &HostRuntime) -> anyhow::Result<()> {
        match self {
            Fault::Refused(why) => println!(rt; "{why}")?,
            Fault::Said => (),
            Fault::Failed(error) => return Err(error),
        }
        Ok(())
    }
}

impl From<anyhow::Error> for Fault {
    fn from(error: anyhow::Error) -> Fault {
        Fault::Failed(error)
    }
}

impl From<io::Error> for Fault {
    fn from(error: io::Error) -> Fault {
        Fault::Failed(error.into())
    }
}

impl From<AllocError> for Fault {
    fn from(error: AllocError) -> Fault {
        Fault::Failed(error.into())
    }
}

impl<T: Drop> From<AllocFailed<T>> for Fault {
    fn from(error: AllocFailed<T>) -> Fault {
        Fault::from(AllocError::from(error))
    }
}
