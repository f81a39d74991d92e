//! Why a step stops, and why a call doesn't return.

/// Why a step stopped, with the address of the opcode. A stop changes nothing.
#[derive(Clone, Copy, Debug, PartialEq, Eq)]
pub enum Stop {
    /// An opcode that the manual's table has no row for.
    Illegal {
        /// The address of the opcode.
        at: u16,
    },
    /// BRK.
    Break {
        /// The address of the opcode.
        at: u16,
    },
    /// ADC or SBC with the decimal flag set.
    Decimal {
        /// The address of the opcode.
        at: u16,
    },
}

/// Why a call did not return.
#[derive(Clone, Copy, Debug, PartialEq, Eq)]
pub enum CallStop {
    /// A step stopped.
    Stopped(Stop),
    /// As many steps as the budget allows were made.
    Budget,
}
