//! Files in memory, some of whose calls fail by their numbers.

ghost use Rattle.std.specs.Prelude.{◌≡◌, ℕ, ◌<◌, ◌≤◌, ◌↔◌, List, length, Option, Some, None, IfOk, OnOk, OnErr, IsErrOf, IfErr, IsOk, ◌⊎◌};
ghost use Rattle.crq_io.specs.Faults.{Rose, NoFault, one_more};
ghost use Rattle.crq_io.specs.Told.{IsTold};
ghost use Rattle.crq_io.specs.MemFiles.{bytes_at, file_in, told_of, fails_of, calls_of, faults_of, FailsNext, SameCounts, IsNextCall};

use crate::faults::{is_listed, list_of, one_more};
use crate::files::{Fetch, Files};
use crq_base::Memory;
use std::alloc::{AllocError, Global};
use std::collections::BTreeMap;

/// Files that stand in memory under their names. The calls of `fetch` are numbered from 1, and those
/// whose numbers are listed fail. Numbers and faults are counted up to 2^64 - 1.
#[derive(Drop)]
pub struct MemFiles {
    files: BTreeMap<String, Vec<u8>>,
    fails: Vec<u64>,
    calls: u64,
    faults: u64,
}

/// Sets the bytes under one name.
fn set_file(
    files: &mut BTreeMap<String, Vec<u8>>,
    alloc: Global,
    name: &str,
    bytes: &[u8],
) -> Result<(), AllocError>
    ensures set { OnOk result (bytes_at files.new name.now ≡ Some bytes.now) }
    ensures others { (other : List ℕ) → (other ≡ name.now → ⊥)
        → bytes_at files.new other ≡ bytes_at files.old other }
    ensures memory { OnErr result ((other : List ℕ)
        → bytes_at files.new other ≡ bytes_at files.old other) }
{
    let key = String::from_str(alloc, name)?;
    let value = Vec::from_slice(alloc, bytes)?;
    files.insert(key, value)?;
    Ok(())
}

impl MemFiles {
    /// Holds no file. The calls of `fetch` that fail are those whose numbers, from 1, are in `fails`.
    pub fn new(alloc: Global, fails: &[u64]) -> Result<MemFiles, Memory>
        ensures files { IfOk result (λ made. (name : List ℕ) → file_in made name ≡ None) }
        ensures fails { IfOk result (λ made. fails_of made ≡ fails.now) }
        ensures counts { IfOk result (λ made. (calls_of made ≡ 0) × (faults_of made ≡ 0)) }
    {
        let fails = list_of(alloc, fails)?;
        Ok(MemFiles {
            files: BTreeMap::new(alloc),
            fails,
            calls: 0,
            faults: 0,
        })
    }

    /// Sets the bytes under one name. Where memory is short nothing is changed.
    pub fn add(&mut self, alloc: Global, name: &str, bytes: &[u8]) -> Result<(), Memory>
        ensures set { OnOk result (file_in self.new name.now ≡ Some bytes.now) }
        ensures others { (other : List ℕ) → (other ≡ name.now → ⊥)
            → file_in self.new other ≡ file_in self.old other }
        ensures memory { OnErr result ((other : List ℕ)
            → file_in self.new other ≡ file_in self.old other) }
        ensures counts { SameCounts self.old self.new }
    {
        set_file(&mut self.files, alloc, name, bytes)?;
        Ok(())
    }

    /// How often a fetch failed.
    pub fn faults(&self) -> u64
        ensures { result ≡ faults_of self.now }
    {
        self.faults
    }
}

/// A copy of a file's bytes, if the limit allows them.
fn copy_within(alloc: Global, bytes: &[u8], limit: u64) -> Result<Vec<u8>, Fetch>
    ensures ok { IfOk result (λ copy. (copy.items ≡ bytes.now) × (length bytes.now ≤ limit)) }
    ensures long { limit < length bytes.now → IsErrOf result Fetch.Long }
    ensures err { IfErr result (λ e. (e ≡ Fetch.Memory)
        ⊎ ((e ≡ Fetch.Long) × (limit < length bytes.now))) }
{
    if bytes.len() as u64 > limit {
        return Err(Fetch::Long);
    }
    match Vec::from_slice(alloc, bytes) {
        Ok(copy) => Ok(copy),
        Err(_) => Err(Fetch::Memory),
    }
}

impl Files for MemFiles {
    ghost found = { told_of };

    ghost faults = { faults_of };

    fn fetch(&mut self, alloc: Global, name: &str, limit: u64) -> Result<Vec<u8>, Fetch>
        // What all files ensure.
        ensures ok { IfOk result (λ bytes. (length bytes.items ≤ limit)
            × IsTold (told_of self.old name.now) bytes.items) }
        ensures kept { (other : List ℕ) → told_of self.new other ≡ told_of self.old other }
        ensures later { faults_of self.old ≤ faults_of self.new }
        ensures failed { IsErrOf result Fetch.Failed → Rose (faults_of self.old) (faults_of self.new) }
        ensures long { IsErrOf result Fetch.Long → (bytes : List ℕ)
            → told_of self.old name.now ≡ Some (Some bytes)
            → (limit < length bytes) × (faults_of self.new ≡ faults_of self.old) }
        ensures too_long { (bytes : List ℕ) → told_of self.old name.now ≡ Some (Some bytes)
            → limit < length bytes → NoFault (faults_of self.old) (faults_of self.new)
            → IsErrOf result Fetch.Long }
        ensures none_is_long { IsErrOf result Fetch.Long → told_of self.old name.now ≡ Some None → ⊥ }
        ensures no_file { IsErrOf result Fetch.NoFile
            → (told_of self.old name.now ≡ Some None) × (faults_of self.new ≡ faults_of self.old) }
        ensures absent { told_of self.old name.now ≡ Some None
            → NoFault (faults_of self.old) (faults_of self.new) → IsErrOf result Fetch.NoFile }
        ensures fits { (bytes : List ℕ) → told_of self.old name.now ≡ Some (Some bytes)
            → length bytes ≤ limit → NoFault (faults_of self.old) (faults_of self.new)
            → IsOk result ⊎ IsErrOf result Fetch.Memory }

        // A call fails, and is counted, exactly where its number is listed.
        ensures refused { IsErrOf result Fetch.Failed ↔ FailsNext self.old }
        ensures counted { FailsNext self.old → faults_of self.new ≡ one_more (faults_of self.old) }
        ensures uncounted { (FailsNext self.old → ⊥) → faults_of self.new ≡ faults_of self.old }
        ensures next { IsNextCall self.old self.new }
    {
        self.calls = one_more(self.calls);
        if is_listed(self.fails.as_slice(), self.calls) {
            self.faults = one_more(self.faults);
            return Err(Fetch::Failed);
        }
        match self.files.get(name) {
            Some(bytes) => copy_within(alloc, bytes.as_slice(), limit),
            None => Err(Fetch::NoFile),
        }
    }
}
