//! An object of an account as the columns of a row.
#![tactic(auto)]

mod pieces;
mod row;

pub use pieces::pieces_of;
pub use row::{
    Columns, PLACED, Row, RowFault, from_row, object_of_columns, row_with_etag, row_with_place,
    to_row,
};
