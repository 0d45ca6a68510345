// How points lie in the store.
ghost use Rattle.std.specs.Prelude.{◌≡◌, ◌<◌};
ghost use Rattle.placement_rows.specs.Shapes.{shape_of};

#[derive(Clone, Copy)]
pub struct Shape {
    pub dimensions: usize,
    pub base: usize,
    pub rotation: bool,
}

// Kept: a store's calls give three fields of the record each: no crate below them knows both this shape and the record.
impl Shape {
    // Base is how many words each of the shingle's points has.
    pub fn new(dimensions: usize, shingle_size: usize, rotation: bool) -> Self
        requires { 0 < shingle_size }
        ensures { result ≡ shape_of dimensions shingle_size rotation }
    {
        Shape {
            dimensions,
            base: dimensions / shingle_size,
            rotation,
        }
    }
}
