// The tags of all fields, each by its name. What a body holds is left to the crates above: Row.antt says which bodies hold fields.

// 01, the page and its items.
pub const PAGE: u8 = 0x01;

pub const EXPORT: u8 = 0x10;

pub const DECLARATION: u8 = 0x11;

pub const STATEMENT: u8 = 0x12;

pub const EMPTY_STATEMENT: u8 = 0x13;

// Options: 01's three, and 02's A12.
pub const ELEMENTS_NOT_SERIALIZED: u8 = 0x02;

pub const ATTRIBUTES_NOT_SERIALIZED: u8 = 0x03;

pub const IMPORT_SOURCE: u8 = 0x04;

pub const SUMS: u8 = 0x05;

// A piece is source text, an element or a fragment.
pub const SOURCE: u8 = 0x20;

pub const ELEMENT: u8 = 0x30;

pub const FRAGMENT: u8 = 0x31;

// Names.
pub const IDENT: u8 = 0x40;

pub const MEMBER: u8 = 0x41;

pub const NAMESPACED_NAME: u8 = 0x42;

// What stands in a tag and among children.
pub const ATTRIBUTE: u8 = 0x50;

pub const ATTRIBUTE_STRING: u8 = 0x51;

pub const CONTAINER: u8 = 0x52;

pub const SPREAD: u8 = 0x53;

pub const TEXT: u8 = 0x60;

pub const SPREAD_CHILD: u8 = 0x61;

// Expressions; a decimal and a minus over one are 02's A2.
pub const STRING: u8 = 0x70;

pub const NUMBER: u8 = 0x71;

pub const BOOLEAN: u8 = 0x72;

pub const NULL: u8 = 0x73;

pub const OTHER_LITERAL: u8 = 0x74;

pub const MINUS: u8 = 0x75;

pub const ARRAY: u8 = 0x76;

pub const ARRAY_SPREAD: u8 = 0x77;

pub const HOLE: u8 = 0x78;

pub const OTHER_EXPRESSION: u8 = 0x79;

pub const DECIMAL: u8 = 0x7a;

pub const MINUS_DECIMAL: u8 = 0x7b;

// Templates out: a template, its strings, and a template of the old form (02, A6).
pub const OLD_TEMPLATE: u8 = 0x80;

pub const STATIC_STRING: u8 = 0x81;

pub const TEMPLATE: u8 = 0x84;

// In front of page out: the import, and the place where the templates go.
pub const IMPORT: u8 = 0x82;

pub const TEMPLATES_HERE: u8 = 0x83;

// What fills a template (02, A8).
pub const ORDER: u8 = 0x85;

pub const ATTRIBUTE_TEXT: u8 = 0x86;

pub const PLAIN_TEXT: u8 = 0x87;

// Calls in page out, and what props hold.
pub const JSX_TEMPLATE: u8 = 0x90;

pub const JSX_ATTR: u8 = 0x91;

pub const JSX_ESCAPE: u8 = 0x92;

pub const CHOICE: u8 = 0x93;

pub const JSX: u8 = 0x94;

pub const PROPS: u8 = 0x95;

pub const PROP: u8 = 0x96;

// A page in a catalogue (02, A13).
pub const CATALOGUED_PAGE: u8 = 0x97;
