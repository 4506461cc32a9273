ghost use Rattle.std.specs.Prelude.{◌≡◌, ◌≤◌, length};

use crate::heads::Head;

// The output while it is written, from its front on.
#[derive(Drop)]
pub(crate) struct Sheet<'a> {
    output: &'a mut [u8],
    pub end: usize,
    ghost within: { end ≤ length output.now },
}

impl Sheet<'_> {
    ghost use Rattle.writer.specs.Heads.{own};
    ghost use Rattle.writer.specs.Sheets.{AfterPut};

    // Nothing is written.
    pub(crate) fn over(output: &mut [u8]) -> Sheet<'_>
        ensures lent { result.output.ghost_name ≡ output.entry.ghost_name }
        ensures empty { result.end ≡ 0 }
        ensures output { result.output.now ≡ output.old }
    {
        Sheet { output, end: 0 }
    }

    // Writes bytes behind the others, if there is room for them.
    #[tactic(auto, using(crate::proofs::Sheets::putting))]
    fn put_all<const N: usize>(&mut self, bytes: [u8; N]) -> Option<()>
        ensures lent { self.new.output.ghost_name ≡ self.old.output.ghost_name }
        ensures put { AfterPut bytes.entry self.old result self.new }
    {
        if self.output.len() - self.end < N {
            return None;
        }
        self.output[self.end..self.end + N].copy_from_slice(&bytes);
        self.end += N;
        Some(())
    }

    // Writes the bytes of a head itself behind the others, if there is room for them.
    pub(crate) fn put(&mut self, head: Head) -> Option<()>
        ensures lent { self.new.output.ghost_name ≡ self.old.output.ghost_name }
        ensures put { AfterPut (own head) self.old result self.new }
    {
        match head {
            Head::Application { .. } => self.put_all([1]),
            Head::Function { .. } => self.put_all([2]),
            Head::Place(index) => self.put_all([3, index]),
            Head::Ingredient(number) => {
                let [high, low] = number.to_be_bytes();
                self.put_all([4, high, low])
            }
        }
    }
}
