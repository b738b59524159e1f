//! The closed tables of JSON-LD 1.1: keywords, error codes, shapes of containers, datatypes.
//!
//! Each table gives a number for a name and the name for the number. The enums stand on such
//! tables, and know their own names. Nothing here takes memory.
#![tactic(auto)]

// The table of an enum's names, numbered as its variants are.
macro_rules! rows {
    ($kind:ident; $($variant:ident = $name:literal,)*) => {
        Table::of(&[$(Row { name: $name, number: $kind::$variant as u16 }),*])
    };
}

// All the variants.
macro_rules! each {
    ($kind:ident; $($variant:ident = $name:literal,)*) => {
        [$($kind::$variant),*]
    };
}

// The name of a variant.
macro_rules! name_in {
    ($kind:ident $value:ident; $($variant:ident = $name:literal,)*) => {
        match $value {
            $($kind::$variant => $name),*
        }
    };
}

mod code;
mod datatype;
mod keyword;
mod shape;
mod table;

pub use code::{Code, code_of};
pub use datatype::{Datatype, datatype_of};
pub use keyword::{Keyword, keyword_of};
pub use shape::{Shape, container_shape};
pub use table::{Row, Table};
