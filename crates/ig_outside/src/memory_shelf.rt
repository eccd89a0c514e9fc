//! A shelf in memory, which fails at the fetches that it was told to fail at.
ghost use Rattle.std.specs.Prelude.{◌≡◌, ◌≢◌, ℕ, ◌≤◌, ◌↔◌, List, [], ◌∷◌, ◌++◌, IsTrue, false};
ghost use Rattle.std.specs.Prelude.{OnOk, OnErr, if◌then◌else◌, option_copied};
ghost use Rattle.ig_outside.specs.Counts.{last_count, risen};
ghost use Rattle.ig_outside.specs.Told.{nothing};
ghost use Rattle.ig_outside.specs.Fetch.{AnswersFetch, CausesFetch};
ghost use Rattle.ig_outside.specs.MemoryShelf.{content_of, told_of, faults_of, fetches_of};
ghost use Rattle.ig_outside.specs.MemoryShelf.{given_of, state_of, fails_at, Holds, Fails};
ghost use Rattle.ig_outside.specs.MemoryShelf.{SameContent, SameCounts, SameFailures};

use crate::record::Record;
use crate::shelf::{FetchFault, Shelf};
use std::alloc::{AllocError, Global};
use std::collections::{BTreeMap, BTreeSet};

/// A shelf that holds its bytes in memory, and tells what it holds.
#[derive(Debug, Drop)]
pub struct MemoryShelf {
    alloc: Global,
    contents: BTreeMap<String, Vec<u8>>,
    /// The numbers of the fetches that fail, counted from 1.
    failing: BTreeSet<u64>,
    faults: u64,
    fetches: u64,
    record: Record<u64, Result<Vec<u8>, FetchFault>>,
}

impl MemoryShelf {
    /// A shelf that holds nothing, fails at no fetch and has the counts 0. Takes no memory.
    pub fn new(alloc: Global) -> MemoryShelf
        ensures empty { (n : List ℕ) → (⟦<MemoryShelf as Shelf>⟧.state result).holds n ≡ nothing }
        ensures no_failures { (k : ℕ) → fails_at result k ≡ false }
        ensures faults { (⟦<MemoryShelf as Shelf>⟧.state result).faults ≡ 0 }
        ensures fetches { (⟦<MemoryShelf as Shelf>⟧.state result).fetches ≡ 0 }
        ensures given { (⟦<MemoryShelf as Shelf>⟧.state result).given ≡ [] }
    {
        MemoryShelf {
            alloc,
            contents: BTreeMap::new(alloc),
            failing: BTreeSet::new(alloc),
            faults: 0,
            fetches: 0,
            record: Record::new(),
        }
    }

    /// Holds `bytes` under `name` from now on, in place of what was held there.
    ///
    /// Refused only for want of memory; then every name has what it had.
    pub fn add(&mut self, name: &str, bytes: &[u8]) -> Result<(), AllocError>
        ensures ok { OnOk result (Holds self.old self.new name.now bytes.now) }
        ensures err { OnErr result (SameContent self.old self.new) }
        ensures counts { SameCounts self.old self.new }
        ensures failures { SameFailures self.old self.new }
    {
        let key = String::from_str(self.alloc, name)?;
        let content = Vec::from_slice(self.alloc, bytes)?;
        self.contents.insert(key, content)?;
        Ok(())
    }

    /// Makes the fetch of number `call` fail, counted from 1 over the life of the shelf.
    ///
    /// Refused only for want of memory; then the same fetches fail as before.
    pub fn fail(&mut self, call: u32) -> Result<(), AllocError>
        ensures ok { OnOk result (Fails self.old self.new call) }
        ensures err { OnErr result (SameFailures self.old self.new) }
        ensures counts { SameCounts self.old self.new }
        ensures same { SameContent self.old self.new }
    {
        self.failing.insert(u64::from(call))?;
        Ok(())
    }

    /// How many fetches failed, or the last count where there were more. Takes no memory.
    pub fn count(&self) -> u64
        ensures { result ≡ (⟦<MemoryShelf as Shelf>⟧.state self.now).faults }
    {
        self.faults
    }
}

impl Shelf for MemoryShelf {
    ghost state = { state_of };

    /// Fetches as every shelf does. It fails exactly where this fetch was told to fail, and each
    /// failure raises the count of faults by one.
    fn fetch(&mut self, alloc: Global, name: &str, most: u64) -> Result<Vec<u8>, FetchFault>
        ensures answer { AnswersFetch (content_of self.old name.now) most result }
        ensures cause { CausesFetch (faults_of self.old) (faults_of self.new) result }
        ensures before { faults_of self.old ≤ last_count }
        ensures after { faults_of self.new ≤ last_count }
        ensures counted { fetches_of self.new ≡ risen (fetches_of self.old) }
        ensures recorded { given_of self.new ≡
            given_of self.old ++ (name.now, (most, result)) ∷ [] }
        ensures same { (n : List ℕ) → content_of self.new n ≡ content_of self.old n }
        ensures failed { IsTrue (fails_at self.old (fetches_of self.new)) ↔
            (result ≡ Err FetchFault.Failed) }
        ensures rise { faults_of self.new ≡ (if fails_at self.old (fetches_of self.new)
            then risen (faults_of self.old) else faults_of self.old) }
        ensures failures { SameFailures self.old self.new }
    {
        let faults = self.faults;
        self.fetches = self.fetches.saturating_add(1);
        if self.failing.contains(&self.fetches) {
            self.faults = faults.saturating_add(1);
            let answer = Err(FetchFault::Failed);
            self.record = self.record.and(name, &most, &answer);
            return answer;
        }
        let answer = copy_of(alloc, self.contents.get(name), most);
        self.record = self.record.and(name, &most, &answer);
        answer
    }
}

// A copy of what was found under a name, if it is at most `most` bytes.
fn copy_of(alloc: Global, found: Option<&Vec<u8>>, most: u64) -> Result<Vec<u8>, FetchFault>
    ensures answer { AnswersFetch (told_of (option_copied found.entry)) most result }
    ensures no_failure { result ≢ Err FetchFault.Failed }
{
    let Some(content) = found else {
        return Err(FetchFault::Missing);
    };
    if content.len() as u64 > most {
        return Err(FetchFault::Long);
    }
    let copy = Vec::from_slice(alloc, content.as_slice())?;
    Ok(copy)
}
