//! The limits of sources, and of what is made of them. `specs/Limits` has the same numbers under the same names, in small
//! letters.

/// The greatest width of a word, in bits.
pub const WIDTH_MAX: u8 = 128;

/// The most bytes of a source.
pub const SOURCE_MAX: usize = 1_048_576;

/// The most bytes of a name in a source.
pub const NAME_MAX: usize = 64;

/// The most digits of a number in a source.
pub const DIGITS_MAX: usize = 128;

/// The most digits of a decimal number below 2 to the 64th.
pub const DECIMAL_MAX: usize = 20;

/// The most digits of an argument, which is a decimal number below 2 to the 128th.
pub const ARGUMENT_MAX: usize = 39;

/// The most functions of a source.
pub const FUNCTIONS_MAX: usize = 1_000;

/// The most parameters of a function.
pub const PARAMS_MAX: usize = 16;

/// The most bindings of a let.
pub const BINDINGS_MAX: usize = 16;

/// The most call sites of a program.
pub const SITES_MAX: u32 = 4_000;

/// The most nodes of all bodies of a program.
pub const NODES_MAX: u32 = 50_000;

/// The most call sites that are counted: one more than a program may have.
pub const SITES_COUNTED: u32 = SITES_MAX + 1;

/// The most nodes that are counted: one more than a program may have.
pub const NODES_COUNTED: u32 = NODES_MAX + 1;

/// How deep a body may be: what recurses on one has a stack that is large enough. A source's are at most 1,100 deep, by a
/// law on what keeps the levels.
pub const DEPTH_MAX: u32 = 2_000;

/// The most functions of a generated source, besides main.
pub const GENERATED_MAX: u32 = 900;

/// The most bytes of a name in a netlist.
pub const NET_NAME_MAX: usize = 200;

/// The greatest count of 32 bits, as of signals and of outputs.
pub const COUNT_MAX: u32 = u32::MAX;
