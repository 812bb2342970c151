//! Pages of HTML: elements with attributes and content, and how they are written. It knows no chess.
//!
//! What a page is, is said by a `Node` of the definitions: a text, an element, or one node beside another. `Markup` is
//! the text of a page that is made piece by piece, so a page does not stand in memory as a tree. What its calls put is
//! the text of a node, or the start or the end of one.
//!
//! Texts and the values of attributes are escaped; the names of tags and of attributes are those of two enums. So no
//! text can add a tag, an attribute or a reference.
#![tactic(auto)]

mod escapes;
mod tag;
mod writing;

pub use tag::{AttributeName, Tag};
pub use writing::{Attribute, Markup};
