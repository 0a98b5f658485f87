//! What the program's words may ask for.

ghost use Rattle.std.specs.Prelude.{◌≡◌};
ghost use Rattle.pb_cli.specs.declared.words.AskFault.TheVariants.{NoMemory};

use pb_export::{CaptureExport, Export};
pub use pb_monitor::Options;
use std::alloc::AllocError;
use thiserror::Error;

/// What the program is asked to do.
#[derive(Debug, PartialEq, Eq, Drop)]
pub enum Ask {
    /// Turn lines of hex on standard input into lines of text.
    Decode,
    /// Play a scenario file.
    Run {
        /// The file's path.
        file: String,
        /// How many workers play it, 1 to 64.
        workers: Option<usize>,
        /// How many of the last lines to print, 1 to 10,000.
        last: Option<usize>,
    },
    /// Judge the run of a scenario file.
    Audit {
        /// The file's path.
        file: String,
    },
    /// Tell the bounds of a scenario file's bus.
    Bounds {
        /// The file's path.
        file: String,
        /// How many bits a second the bus has, 9,600 to 12,000,000.
        baud: u32,
        /// Whether they are wanted as one JSON object.
        json: bool,
    },
    /// Read a capture on standard input.
    Monitor {
        /// The path of the file that has the parameters of the bus.
        file: Option<String>,
        /// What the monitor is asked for.
        options: Options,
        /// The form in which the capture is written, in place of lines of text; 9,600 to 12,000,000 bits a second.
        export: Option<CaptureExport>,
    },
    /// Print what a listener hears of the run of a scenario file.
    Capture {
        /// The file's path.
        file: String,
        /// The tap that listens; without it each telegram is heard as it was sent.
        tap: Option<String>,
    },
    /// Write the trace of a scenario file's run in a form that other tools read.
    Export {
        /// The file's path.
        file: String,
        /// The form, and which entries it shows; 9,600 to 12,000,000 bits a second.
        export: Export,
    },
    /// Play a scenario file, and print its trace as it settles.
    Stream {
        /// The file's path.
        file: String,
        /// The moment until which time passes, in bit times, at most 10^12, in place of the file's.
        until: Option<u64>,
        /// Whether to show how far it is, also where nobody may look on.
        progress: bool,
        /// Whether to print the audit of the run in place of its trace.
        audit: bool,
    },
    /// Print the version.
    Version,
}

/// What the program is asked to do, and how much it prints.
#[derive(Debug, PartialEq, Eq, Drop)]
pub struct Asked {
    /// What to do.
    pub ask: Ask,
    /// Whether hints and warnings are suppressed.
    pub is_quiet: bool,
}

/// Why the program's words cannot be obeyed.
#[derive(Debug, Drop, Error)]
pub enum AskFault {
    /// The words make no sense, or ask for help. The text is the usage to show.
    #[error("{0}")]
    Usage(String),
    /// Memory was refused.
    #[error("no memory")]
    NoMemory,
}

impl From<AllocError> for AskFault {
    ghost from_gives = { λ _ fault. fault ≡ NoMemory };

    fn from(_refused: AllocError) -> AskFault {
        AskFault::NoMemory
    }
}
