// The objects of a store, indexed by the object's number; those in use are the first `count`.
pub const OBJECTS: usize = 64;

#[derive(Clone, Copy)]
pub struct Objects {
    pub count: usize,
    pub kind: [u8; OBJECTS],
    pub opening: [i64; OBJECTS],
}
