//! Files in memory: their contents are told, and stated calls fail.
ghost use Rattle.std.specs.Prelude.{◌≡◌, ◌≤◌, [], ◌∷◌, take, IfOk, OnOk, OnErr, vec_len};
ghost use Rattle.std.specs.List.{find};
ghost use Rattle.std.specs.Option.{option_copied};
ghost use Rattle.std.specs.Str.{bytes_eq};

use crate::outages::Outages;
use crate::outside::{FileFault, Files, MOST_READ};
use std::alloc::{AllocError, Global};
use std::marker::Model;

/// A file's name and its bytes.
#[derive(Drop)]
struct Entry {
    name: Vec<u8>,
    bytes: Vec<u8>,
}

impl Model for Entry {
    ghost use Rattle.std.specs.Prelude.{ℕ, List};

    ghost Value = { List ℕ × List ℕ };

    ghost view = { λ e. (e.name.items, e.bytes.items) };
}

impl Entry {
    fn new(alloc: Global, name: &[u8], bytes: &[u8]) -> Result<Entry, AllocError>
        ensures { IfOk result (λ e. e ≡ (name.now, bytes.now)) }
    {
        Ok(Entry {
            name: Vec::from_slice(alloc, name)?,
            bytes: Vec::from_slice(alloc, bytes)?,
        })
    }

    fn name(&self) -> &[u8]
        ensures { result.now ≡ self.now.0 }
    {
        self.name.as_slice()
    }

    fn bytes(&self) -> &[u8]
        ensures { result.now ≡ self.now.1 }
    {
        self.bytes.as_slice()
    }
}

/// Files in memory.
#[derive(Drop)]
pub struct MemFiles {
    alloc: Global,
    files: Vec<Entry>,
    outages: Outages,
}

impl MemFiles {
    ghost use Rattle.filc_io.specs.MemFiles.{files_in, failing_calls, calls_made, faults_of};

    /// No files yet. The calls of `read_file` whose numbers are in `fails` will fail; they are
    /// counted from 0.
    pub fn new(alloc: Global, fails: &[u64]) -> Result<MemFiles, AllocError>
        ensures files { IfOk result (λ files. files_in files ≡ []) }
        ensures fails { IfOk result (λ files. failing_calls files ≡ fails.now) }
        ensures calls { IfOk result (λ files. calls_made files ≡ 0) }
        ensures faults { IfOk result (λ files. faults_of files ≡ 0) }
    {
        Ok(MemFiles {
            alloc,
            files: Vec::new(alloc),
            outages: Outages::new(alloc, fails)?,
        })
    }

    /// Adds a file. A name that is added again has the later bytes from then on.
    pub fn add(&mut self, name: &str, bytes: &[u8]) -> Result<(), AllocError>
        ensures ok { OnOk result (files_in self.new ≡ (name.now, bytes.now) ∷ files_in self.old) }
        ensures err { OnErr result (files_in self.new ≡ files_in self.old) }
        ensures fails { failing_calls self.new ≡ failing_calls self.old }
        ensures calls { calls_made self.new ≡ calls_made self.old }
        ensures faults { faults_of self.new ≡ faults_of self.old }
    {
        let entry = Entry::new(self.alloc, name.as_bytes(), bytes)?;
        self.files.insert(0, entry)?;
        Ok(())
    }

    /// The file of that name.
    fn find(&self, name: &str) -> Option<&Entry>
        ensures { option_copied result
            ≡ find (λ file. bytes_eq file.0 name.now) (files_in self.now) }
    {
        let name = name.as_bytes();
        self.files.iter().find(|entry| entry.name() == name)
    }
}

impl Files for MemFiles {
    ghost use Rattle.std.specs.Prelude.{◌≡◌, ◌≢◌, ◌≤◌, ◌↔◌, take, vec_len, None, IfOk, IsSomeAnd, Contains};
    ghost use Rattle.filc_io.specs.Counts.{count_after};
    ghost use Rattle.filc_io.specs.Outside.{file_named};
    ghost use Rattle.filc_io.specs.MemFiles.{files_in, failing_calls, calls_made, faults_of, state_of};

    ghost state = { state_of };

    ghost counted = { λ files. files.outages.faults.in_range };

    fn read_file(&mut self, alloc: Global, name: &str) -> Result<Vec<u8>, FileFault>
        // The calls are counted, and the stated ones fail.
        ensures stated { (result ≡ Err FileFault.Failed)
            ↔ Contains (failing_calls self.old) (calls_made self.old) }
        ensures one_fault { result ≡ Err FileFault.Failed
            → faults_of self.new ≡ count_after (faults_of self.old) }
        ensures no_fault { result ≢ Err FileFault.Failed
            → faults_of self.new ≡ faults_of self.old }
        ensures never_falls { faults_of self.old ≤ faults_of self.new }

        // The other calls look for the file.
        ensures bytes { IfOk result (λ v. IsSomeAnd (file_named name.now (files_in self.old))
            (λ bytes. v.items ≡ take MOST_READ bytes)) }
        ensures limit { IfOk result (λ v. vec_len v ≤ MOST_READ) }
        ensures missing { result ≡ Err FileFault.Missing
            → file_named name.now (files_in self.old) ≡ None }
        ensures missing_is_no_fault { result ≡ Err FileFault.Missing
            → faults_of self.new ≡ faults_of self.old }

        ensures files { files_in self.new ≡ files_in self.old }
        ensures calls { calls_made self.new ≡ count_after (calls_made self.old) }
        ensures fails { failing_calls self.new ≡ failing_calls self.old }
    {
        if self.outages.begin() {
            return Err(FileFault::Failed);
        }
        let Some(entry) = self.find(name) else {
            return Err(FileFault::Missing);
        };
        match front_of(alloc, entry.bytes()) {
            Ok(bytes) => Ok(bytes),
            Err(_) => Err(FileFault::NoMemory),
        }
    }
}

/// The bytes that are read of a file's.
#[tactic(auto, using(std::proofs::lemmas::List::take_min))]
fn front_of(alloc: Global, bytes: &[u8]) -> Result<Vec<u8>, AllocError>
    ensures front { IfOk result (λ front. front.items ≡ take MOST_READ bytes.now) }
    ensures limit { IfOk result (λ front. vec_len front ≤ MOST_READ) }
{
    Vec::from_slice(alloc, &bytes[..MOST_READ.min(bytes.len())])
}
