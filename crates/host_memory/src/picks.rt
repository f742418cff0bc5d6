// What a choice picks for each file: by its number alone for small ones, and by drawn numbers for greater ones.
ghost use Rattle.std.specs.Prelude.{◌≡◌, ◌<◌, ◌≤◌, length, IfErr, IfSome};
ghost use Rattle.cache_disk.specs.declared.host.HostFault.TheVariants.{Memory};

use crate::crash::Pick;
use crate::directory::{copy_of, is_same};
use crate::{Call, DiskFile, Turn};
use cache_disk::HostFault;
use cache_model::FileName;
use std::alloc::Global;

// The generator of numbers that are drawn.
#[derive(Drop)]
struct Draws {
    x: u64,
}

impl Draws {
    fn next(&mut self) -> u64 {
        self.x = self
            .x
            .wrapping_mul(6364136223846793005)
            .wrapping_add(1442695040888963407);
        self.x
    }
}

// What is known of a file after some turns.
#[derive(Drop)]
struct Track {
    // The bytes as they read, and as they were synced last.
    file: DiskFile,
    synced: Vec<u8>,
    // For each byte, whether it was written since the file was synced.
    marks: Vec<bool>,
    // Whether it is there, whether it was when the names were synced last, and whether it was made or deleted since.
    there: bool,
    was_there: bool,
    changed: bool,
}

impl Track {
    // A file that is there and synced.
    fn synced(alloc: Global, name: FileName, bytes: &[u8]) -> Result<Track, HostFault>
        ensures { IfErr result (λ fault. fault ≡ Memory) }
    {
        let mut marks = Vec::new(alloc);
        for _ in bytes {
            push_mark(&mut marks, false)?;
        }
        Ok(Track {
            file: DiskFile::new(name, copy_of(alloc, bytes)?),
            synced: copy_of(alloc, bytes)?,
            marks,
            there: true,
            was_there: true,
            changed: false,
        })
    }

    fn write(&mut self, at: u64, bytes: &[u8]) -> Result<(), HostFault>
        ensures { IfErr result (λ fault. fault ≡ Memory) }
    {
        self.file.write_over(at, bytes)?;
        mark(&mut self.marks, at, bytes.len())
    }

    fn sync(&mut self, alloc: Global) -> Result<(), HostFault>
        ensures { IfErr result (λ fault. fault ≡ Memory) }
    {
        self.synced = copy_of(alloc, self.file.bytes())?;
        for marked in self.marks.iter_mut() {
            *marked = false;
        }
        Ok(())
    }

    fn delete(&mut self) {
        self.there = false;
        self.changed = true;
    }

    fn sync_name(&mut self) {
        self.was_there = self.there;
        self.changed = false;
    }

    // By which key the files are in order.
    fn rank(&self) -> (u8, u8, u32) {
        let name = self.file.name();
        (name.kind as u8, name.store, name.id)
    }

    fn is_marked(&self) -> bool {
        self.marks.iter().any(|marked| *marked)
    }

    // What the choice picks.
    fn pick(&self, alloc: Global, choice: u64, draws: &mut Draws) -> Result<Pick, HostFault>
        ensures { IfErr result (λ fault. fault ≡ Memory) }
    {
        let there = self.pick_name(choice, draws);
        let bytes = if there && self.is_marked() {
            self.pick_bytes(alloc, choice, draws)?
        } else {
            copy_of(alloc, self.file.bytes())?
        };
        Ok(Pick {
            file: DiskFile::new(self.file.name(), bytes),
            there,
        })
    }

    fn pick_name(&self, choice: u64, draws: &mut Draws) -> bool {
        if !self.changed {
            return self.there;
        }
        match choice {
            0 => self.was_there,
            1 => self.there,
            2 | 3 => true,
            _ => draws.next() >> 63 == 1,
        }
    }

    // The bytes of a file of which some were written since it was synced.
    fn pick_bytes(
        &self,
        alloc: Global,
        choice: u64,
        draws: &mut Draws,
    ) -> Result<Vec<u8>, HostFault>
        ensures { IfErr result (λ fault. fault ≡ Memory) }
    {
        let bytes = self.file.bytes();
        match choice {
            0 => copy_of(alloc, &self.synced),
            1 => copy_of(alloc, bytes),
            2 | 3 => filled(alloc, bytes, &self.marks, (choice - 2) as u8),
            _ => {
                let length = pick_length(self.synced.len(), bytes.len(), draws.next());
                drawn(alloc, &bytes[..length], &self.marks, draws)
            }
        }
    }
}

// A length from the synced one to the written one, by a number that was drawn.
fn pick_length(synced: usize, written: usize, number: u64) -> usize
    ensures { result ≤ written }
{
    if synced >= written {
        return written;
    }
    let longer = (written - synced) as u64;
    let lengths = longer.saturating_add(1);
    synced + ((number >> 32) % lengths).min(longer) as usize
}

fn push_mark(marks: &mut Vec<bool>, marked: bool) -> Result<(), HostFault>
    ensures { IfErr result (λ fault. fault ≡ Memory) }
{
    marks.push(marked).map_err(|_| HostFault::Memory)
}

// Marks so many bytes from an offset on.
fn mark(marks: &mut Vec<bool>, at: u64, count: usize) -> Result<(), HostFault>
    ensures { IfErr result (λ fault. fault ≡ Memory) }
{
    let end = at.saturating_add(count as u64);
    for i in at..end {
        if i < marks.len() as u64 {
            marks[i as usize] = true;
        } else {
            push_mark(marks, true)?;
        }
    }
    Ok(())
}

// The bytes, with this one in each marked place.
fn filled(alloc: Global, bytes: &[u8], marks: &[bool], byte: u8) -> Result<Vec<u8>, HostFault>
    ensures { IfErr result (λ fault. fault ≡ Memory) }
{
    let mut result = copy_of(alloc, bytes)?;
    for (place, marked) in result.iter_mut().zip(marks) {
        if *marked {
            *place = byte;
        }
    }
    Ok(result)
}

// The bytes, with a drawn one in each marked place.
fn drawn(
    alloc: Global,
    bytes: &[u8],
    marks: &[bool],
    draws: &mut Draws,
) -> Result<Vec<u8>, HostFault>
    ensures { IfErr result (λ fault. fault ≡ Memory) }
{
    let mut result = copy_of(alloc, bytes)?;
    for (place, marked) in result.iter_mut().zip(marks) {
        if *marked {
            *place = (draws.next() >> 56) as u8;
        }
    }
    Ok(result)
}

// What is known of each file after the turns.
fn tracks_of(alloc: Global, files: &[DiskFile], turns: &[Turn]) -> Result<Vec<Track>, HostFault>
    ensures { IfErr result (λ fault. fault ≡ Memory) }
{
    let mut tracks = Vec::new(alloc);
    for file in files {
        let track = Track::synced(alloc, file.name(), file.bytes())?;
        tracks.push(track).map_err(|_| HostFault::Memory)?;
    }
    for turn in turns {
        follow(alloc, &mut tracks, &turn.call)?;
    }
    Ok(tracks)
}

fn follow(alloc: Global, tracks: &mut Vec<Track>, call: &Call) -> Result<(), HostFault>
    ensures { IfErr result (λ fault. fault ≡ Memory) }
{
    match call {
        Call::Create(name) => create(alloc, tracks, *name)?,
        Call::Write(name, at, bytes) => {
            if let Some(i) = track_of(tracks, *name) {
                tracks[i].write(*at, bytes)?;
            }
        }
        Call::Sync(name, true) => {
            if let Some(i) = track_of(tracks, *name) {
                tracks[i].sync(alloc)?;
            }
        }
        Call::Delete(name) => {
            if let Some(i) = track_of(tracks, *name) {
                tracks[i].delete();
            }
        }
        Call::SyncNames(true) => {
            for track in tracks.iter_mut() {
                track.sync_name();
            }
        }
        _ => {}
    }
    Ok(())
}

// A file that is made is empty, and nothing of it is written.
fn create(alloc: Global, tracks: &mut Vec<Track>, name: FileName) -> Result<(), HostFault>
    ensures { IfErr result (λ fault. fault ≡ Memory) }
{
    let mut track = Track::synced(alloc, name, &[])?;
    track.changed = true;
    match track_of(tracks, name) {
        Some(i) => {
            track.was_there = tracks[i].was_there;
            tracks[i] = track;
            Ok(())
        }
        None => {
            track.was_there = false;
            tracks.push(track).map_err(|_| HostFault::Memory)
        }
    }
}

fn track_of(tracks: &[Track], name: FileName) -> Option<usize>
    ensures { IfSome result (λ i. i < length tracks.now) }
{
    tracks
        .iter()
        .position(|track| is_same(name, track.file.name()))
}

// What the choice picks after the turns, in the order of the files' kinds, stores and ids.
pub(crate) fn picks_of(
    alloc: Global,
    files: &[DiskFile],
    turns: &[Turn],
    choice: u64,
) -> Result<Vec<Pick>, HostFault>
    ensures memory { IfErr result (λ fault. fault ≡ Memory) }
{
    let mut tracks = tracks_of(alloc, files, turns)?;
    tracks
        .sort_by_key(|track| track.rank())
        .map_err(|_| HostFault::Memory)?;
    let mut draws = Draws { x: choice };
    let mut picks = Vec::new(alloc);
    for track in &tracks {
        let pick = track.pick(alloc, choice, &mut draws)?;
        picks.push(pick).map_err(|_| HostFault::Memory)?;
    }
    Ok(picks)
}
