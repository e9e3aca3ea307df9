use crate::row::Row;
use farm_kinds::Answer;

impl Row for Answer {
    fn is_same(&self, other: &Answer) -> bool {
        *self == *other
    }
}
