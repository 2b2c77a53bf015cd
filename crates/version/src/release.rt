//! Which release the programs are of, and by what they were proved.

/// The release that a program is of or, built from sources, the next one; and the logic of the toolchain that proves it, as `rt version` names it.
pub const VERSION: &str = "29 (logic dac8208d650f15bf)";
