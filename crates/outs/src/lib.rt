// Templates out and page out, read back: the checks that conversion, filling, lookup and the catalogue stand on. Fields nest up to 21,845 deep
// in a page out, so its check is a loop with a stack of its own. Who may have written them is not asked.
#![tactic(auto)]

pub mod leaf;
pub mod order;
pub mod page_out;
pub mod templates;

// What the records of templates out are: 80s, or 84s (document 02, A6).
#[derive(Clone, Copy)]
pub enum Kind {
    Old,
    New,
}

// What may still come in a body of a page out.
#[derive(Clone, Copy)]
pub enum Expect {
    // from its beginning: an import, the place of the templates, items
    Whole,
    // behind the import
    Items,
    // the place of the templates came before all items
    Placed,
    // no statement yet, and no place of the templates
    Declarations,
    // a statement, since the place of the templates came between items
    Statement,
    // any items
    Rest,
    // no statement any more, since the place of the templates came before all items and then a declaration
    NoStatement,
    // source text and expressions
    Pieces,
    Exprs,
    // of an array: expressions, spreads, holes
    Elements,
    One,
    Nothing,
    // a string and an expression, and the other way round
    NameThenOne,
    OneThenName,
    JustName,
    // of a call: what is called, properties, a key
    Callee,
    Props,
    Key,
    // of an object: properties and spreads
    Properties,
}
