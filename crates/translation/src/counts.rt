ghost use Rattle.std.specs.Prelude.{◌≡◌};

use super::Translated;

impl Translated {
    // How many different names the text has.
    pub fn names(&self) -> usize
        ensures names { result ≡ self.now.names }
    {
        self.names
    }

    // How many paths the text has.
    pub fn paths(&self) -> usize
        ensures paths { result ≡ self.now.paths }
    {
        self.paths
    }

    // How many semaphores the text takes.
    pub fn semaphores(&self) -> usize
        ensures semaphores { result ≡ self.now.semaphores }
    {
        self.semaphores
    }

    // How many counters the text takes.
    pub fn counters(&self) -> usize
        ensures counters { result ≡ self.now.counters }
    {
        self.counters
    }
}
