//! What a pass knows between its steps.
use crate::call::Call;
use std::collections::LinkedList;

/// What a pass knows of its table. Proofs alone speak of it; the program makes no value of this type.
///
/// `origin` and `lists` are the graph, `number` is the pass's own and `reserved` one kept for the next pass, `seen` is
/// the history so far. `distance` and `source` are the move that it makes next. After a join, until it is confirmed,
/// `former` and `latter` are the two histories and `joined` is the number of the pass that was taken in.
pub struct Knowledge {
    pub origin: u64,
    pub lists: LinkedList<LinkedList<u64>>,
    pub number: Option<u64>,
    pub reserved: Option<u64>,
    pub distance: u64,
    pub source: u64,
    pub seen: LinkedList<Call>,
    pub former: LinkedList<Call>,
    pub latter: LinkedList<Call>,
    pub joined: Option<u64>,
}
