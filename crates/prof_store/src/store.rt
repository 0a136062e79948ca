// The store over a connection.

use sqlite::{Alter, Connection};

/// The tables of schema 2 over a connection. It is open to other crates: what a store is to represent rests on no private field.
#[derive(Drop)]
pub struct Store<S: Alter> {
    pub conn: Connection<S>,
}
