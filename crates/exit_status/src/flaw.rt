/// What is wrong with the file of a store.
#[derive(Clone, Copy, Debug, PartialEq, Eq)]
pub enum StoreFlaw {
    /// It is the store of the configuration with the SHA-256 digest `kept`.
    OtherConfig { kept: [u8; 32] },
    /// This record, from 1 on, is none of this farm's. Where it is the first, the file may be somebody's other one.
    Record { number: u64 },
}
