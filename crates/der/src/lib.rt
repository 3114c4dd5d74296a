//! Values under the Distinguished Encoding Rules (X.690), and object identifiers.
#![tactic(auto)]

mod cursor;
mod data_value;
mod encode;
mod fault;
mod number;
mod oid;
mod read;
mod tag;
mod tree;
mod values;
mod writer;

pub use cursor::{Cursor, Element, elements_have_one_beginning};
pub use data_value::{DataValue, DataValues};
pub use encode::{append_element, append_length, element_of};
pub use fault::DerFault;
pub use number::{is_number_content, numbers_have_one_content, whole_number_content};
pub use oid::{Oid, is_oid_content, oids_have_one_content_and_text};
pub use read::read_tree;
pub use tag::Tag;
pub use tree::{Tree, encodings_are_bounded, trees_have_one_encoding};
pub use values::{check_values, encodings_are_read, read_value};
pub use writer::Writer;
