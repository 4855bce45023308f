//! The parts of the rows of the table.

// This part of each row.
macro_rules! each {
    ($part:ident; $($kind:ident($($key:tt)+), $words:literal $(said $said:literal)?
        $(alone $alone:literal)?, $($fields:expr),+);+ $(;)?) => {
        [$(row!($part; $kind($($key)+); $words; [$($said)?]; [$($alone)?]; $($fields),+)),+]
    };
}

// This part of a row.
macro_rules! row {
    ($part:ident; Osc($n:literal); $words:literal; $said:tt; $alone:tt; $fields:expr) => {
        part!($part; Osc, $n, Anything, 0, "", concat!("OSC ", $n), $words, $said, $alone, "",
            $fields)
    };
    ($part:ident; Osc($n:literal, $start:literal); $words:literal; $said:tt; $alone:tt;
        $fields:expr) => {
        part!($part; Osc, $n, Part, 0, $start, concat!("OSC ", $n, ";", $start), $words, $said,
            $alone, "", $fields)
    };
    ($part:ident; Letter($letter:literal); $words:literal; $said:tt; $alone:tt; $fields:expr) => {
        part!($part; Letter, $letter as u32, Anything, 0, "", concat!("OSC ", $letter), $words,
            $said, $alone, "", $fields)
    };
    ($part:ident; Dcs($name:literal, [$($byte:literal),+]); $words:literal; $said:tt; $alone:tt;
        $params:expr, $fields:expr) => {
        part!($part; Dcs, key!($($byte),+), Anything, 0, "", $name, $words, $said, $alone,
            $params, $fields)
    };
    ($part:ident; Dcs($name:literal, [$($byte:literal),+], Bytes($start:literal));
        $words:literal; $said:tt; $alone:tt; $params:expr, $fields:expr) => {
        part!($part; Dcs, key!($($byte),+), Bytes, 0, $start, $name, $words, $said, $alone,
            $params, $fields)
    };
    ($part:ident; Dcs($name:literal, [$($byte:literal),+], Parameter($number:literal));
        $words:literal; $said:tt; $alone:tt; $params:expr, $fields:expr) => {
        part!($part; Dcs, key!($($byte),+), Parameter, $number, "", $name, $words, $said, $alone,
            $params, $fields)
    };
    ($part:ident; Apc($name:literal, $byte:literal); $words:literal; $said:tt; $alone:tt;
        $fields:expr) => {
        part!($part; Apc, $byte as u32, Anything, 0, "", $name, $words, $said, $alone, "", $fields)
    };
    ($part:ident; Apc($name:literal, $byte:literal, $key:literal); $words:literal; $said:tt;
        $alone:tt; $fields:expr) => {
        part!($part; Apc, $byte as u32, Key, 0, $key, $name, $words, $said, $alone, "", $fields)
    };
}

// One of the parts.
macro_rules! part {
    (entry; $kind:ident, $key:expr, $begin:ident, $number:expr, $start:expr, $name:expr,
        $words:expr, $said:tt, $alone:tt, $params:expr, $fields:expr) => {
        Entry {
            kind: StringKind::$kind,
            key: $key,
            begin: Begin::$begin,
            number: $number,
        }
    };
    (start; $kind:ident, $key:expr, $begin:ident, $number:expr, $start:expr, $name:expr,
        $words:expr, $said:tt, $alone:tt, $params:expr, $fields:expr) => {
        $start
    };
    (name; $kind:ident, $key:expr, $begin:ident, $number:expr, $start:expr, $name:expr,
        $words:expr, $said:tt, $alone:tt, $params:expr, $fields:expr) => {
        $name
    };
    (words; $kind:ident, $key:expr, $begin:ident, $number:expr, $start:expr, $name:expr,
        $words:expr, $said:tt, $alone:tt, $params:expr, $fields:expr) => {
        $words
    };
    (said; $kind:ident, $key:expr, $begin:ident, $number:expr, $start:expr, $name:expr,
        $words:expr, $said:tt, $alone:tt, $params:expr, $fields:expr) => {
        given!("="; $said)
    };
    (alone; $kind:ident, $key:expr, $begin:ident, $number:expr, $start:expr, $name:expr,
        $words:expr, $said:tt, $alone:tt, $params:expr, $fields:expr) => {
        given!(""; $alone)
    };
    (params; $kind:ident, $key:expr, $begin:ident, $number:expr, $start:expr, $name:expr,
        $words:expr, $said:tt, $alone:tt, $params:expr, $fields:expr) => {
        $params
    };
    (fields; $kind:ident, $key:expr, $begin:ident, $number:expr, $start:expr, $name:expr,
        $words:expr, $said:tt, $alone:tt, $params:expr, $fields:expr) => {
        $fields
    };
}

// The given text, or this if nothing is given.
macro_rules! given {
    ($other:expr; []) => {
        $other
    };
    ($other:expr; [$given:literal]) => {
        $given
    };
}

// The key of a device control string of these bytes.
macro_rules! key {
    ($c:literal) => {
        0x100 + $c as u32
    };
    ($a:literal, $c:literal) => {
        (0x100 + $a as u32) * 0x100 + $c as u32
    };
}

pub(crate) use each;
pub(crate) use given;
pub(crate) use key;
pub(crate) use part;
pub(crate) use row;
