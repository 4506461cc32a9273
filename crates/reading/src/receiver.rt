ghost use Rattle.std.specs.Prelude.{◌≡◌};
ghost use Rattle.node.specs.declared.nodes.Located.{Located};

use node::Located;

// What takes the nodes of a code as they are read. It cannot refuse: a table that is full takes no more, and its owner says so afterwards.
pub trait Receiver {
    ghost Held: { Type 0 };

    // What a receiver holds. If its owner lent it something to write to, that belongs to it, and the names of the loans do:
    // by these the owner knows, once the reading has ended, that what comes back is what it lent.
    ghost held: { Self → Held };

    // how one node changes that
    ghost more: { Held → Located → Held };

    fn put(&mut self, node: Located)
        ensures { held self.new ≡ more (held self.old) node };
}

// For a reader that only asks whether a code is a recipe: nothing is kept.
impl Receiver for () {
    ghost Held = { Unit {0} };

    ghost held = { λ _. tt };

    ghost more = { λ _ _. tt };

    fn put(&mut self, _node: Located) {}
}
