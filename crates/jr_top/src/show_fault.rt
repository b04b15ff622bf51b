// Why nothing is shown.

use jr_change::Reason;
use jr_front::FrontFault;

/// Why nothing is shown of files.
#[derive(Clone, Copy, Debug, PartialEq, Eq)]
pub enum ShowFault {
    /// The files do not compile.
    Front(FrontFault),
    /// What is asked for is not there.
    Bad(Reason),
    /// An allocation failed.
    OutOfMemory,
}
