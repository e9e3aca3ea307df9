use crate::public_reader::PublicReader;
use farm_board::Pass;

/// What a lane has of a board: a pass by which it calls it, and a reader of what the public sees.
pub type Access<A, J> = AccessOf<Pass<A>, PublicReader<J>>;

/// `Access`, by the types of the pass and of the reader.
#[derive(Drop)]
pub struct AccessOf<P, R> {
    pub pass: P,
    pub reader: R,
}
