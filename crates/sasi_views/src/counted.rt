// What the book keeps of a component.
ghost use Rattle.std.specs.Prelude.{◌≡◌, ◌==◌, ◌&&◌, not};

/// How many views that are out list a component, and whether it is current.
#[derive(Clone, Copy, Debug)]
pub struct Counted {
    pub count: u32,
    pub current: bool,
}

impl Counted {
    /// Whether it isn't current and no view that is out lists it.
    pub fn is_dead(&self) -> bool
        ensures { result ≡ (not self.now.current && (self.now.count == 0)) }
    {
        !self.current && self.count == 0
    }

    /// Whether it isn't current, but a view that is out lists it.
    pub fn is_obsolete(&self) -> bool
        ensures { result ≡ (not self.now.current && not (self.now.count == 0)) }
    {
        !self.current && self.count != 0
    }
}
