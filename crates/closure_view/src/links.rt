ghost use Rattle.std.specs.Prelude.{◌≡◌};
ghost use Rattle.closure_view.specs.Links.{linked};

use closure_tables::Entry;

// The entry that fills the place of that index, counted along a chain.
pub fn link(entries: &[Entry], chain: Option<u32>, index: u8) -> Option<u32>
    ensures { result ≡ linked entries.now chain index }
{
    (0..index).try_fold(chain?, |entry, _| entries.get(entry as usize)?.next)
}
