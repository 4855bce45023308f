//! The parts of rows that the tables have in common.

// The rows of a table of functions, of its lines.
macro_rules! rows {
    ($of:ident; $($f:ident $(= $name:literal)?, [$($b:tt)+], $($field:ident,)+
        $words:literal);+ $(;)?) => {
        [$(row!($of::$f, key!($($b)+), $($field),+)),+]
    };
}

// A row of a function; if it has no parameters they are left out.
macro_rules! row {
    ($function:expr, $key:expr, $effect:ident, $standard:ident) => {
        row!($function, $key, $effect, Nothing, $standard)
    };
    ($function:expr, $key:expr, $effect:ident, $parameters:ident, $standard:ident) => {
        Row {
            function: $function,
            key: $key,
            effect: Effect::$effect,
            parameters: Parameters::$parameters,
            standard: Standard::$standard,
        }
    };
}

// The rows of a table of modes, of its lines.
macro_rules! mode_rows {
    ($mode:ident; $($f:ident, $number:literal, $effect:ident, $words:literal);+ $(;)?) => {
        [$(ModeRow {
            mode: $mode::$f,
            number: $number,
            effect: Effect::$effect,
        }),+]
    };
}

// The names of a table, from its lines: each that of its variant, or another.
macro_rules! names {
    ($of:ident; $($f:ident $(= $name:literal)?, $code:tt, $($field:ident,)+
        $words:literal);+ $(;)?) => {
        [$(name!($f $(= $name)?)),+]
    };
}

macro_rules! name {
    ($f:ident) => {
        stringify!($f)
    };
    ($f:ident = $name:literal) => {
        $name
    };
}

// The words of a table, of its lines.
macro_rules! words {
    ($of:ident; $($f:ident $(= $name:literal)?, $code:tt, $($field:ident,)+
        $words:literal);+ $(;)?) => {
        [$($words),+]
    };
}

// The places of these functions' rows, and how many rows there are.
macro_rules! starts {
    ($of:ident; $($f:ident),+; $end:literal) => {
        [$($of::$f as u16),+, $end]
    };
}

// The key of a sequence of these bytes; of the longer of two if it begins with `long`.
macro_rules! key {
    ($c:literal) => {
        0x100 + $c as u32
    };
    ($a:literal, $c:literal) => {
        (0x100 + $a as u32) * 0x100 + $c as u32
    };
    ($a:literal, $b:literal, $c:literal) => {
        ((0x100 + $a as u32) * 0x100 + $b as u32) * 0x100 + $c as u32
    };
    (long $c:literal) => {
        0x200 + $c as u32
    };
}

pub(crate) use key;
pub(crate) use mode_rows;
pub(crate) use name;
pub(crate) use names;
pub(crate) use row;
pub(crate) use rows;
pub(crate) use starts;
pub(crate) use words;
