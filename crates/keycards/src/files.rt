// Files: coins that are read once and then zeroed, input that is read so far as any set has it, and output that never replaces a file.
use crate::trouble::Trouble;
use std::fs::{File, OpenOptions};
use std::io::{ErrorKind, Read, Write};
use std::{fs, io};

// The longest input of all sets is a card of set 3; with one byte more a file is known to be too long.
const MOST: u64 = 2557;

// What is lost where a call comes to nothing. It chooses sentences and no step, so an enum is plainer than closures.
#[derive(Clone, Copy)]
pub(crate) enum AtStake {
    Coins,
    Nothing,
}

// A coin file that is open for reading, and once more for overwriting: coins that could not be zeroed are never read.
#[derive(Drop)]
pub(crate) struct CoinFile<'r, 'a> {
    rt: &'r HostRuntime,
    path: &'a str,
    reader: File,
    eraser: File,
}

impl<'r, 'a> CoinFile<'r, 'a> {
    // Opens a coin file and touches nothing of it.
    pub(crate) fn open(rt: &'r HostRuntime, path: &'a str) -> Result<CoinFile<'r, 'a>, Trouble> {
        let reader = open(rt, path)?;
        if !reader.metadata()?.is_file() {
            return Err(Trouble::of_file(
                rt.alloc(),
                path,
                "is not a plain file; copy the coins into a file first",
            ));
        }
        let eraser = OpenOptions::new().write(true).open(rt, path).map_err(|_| {
            Trouble::of_file(
                rt.alloc(),
                path,
                "cannot be written to, so its coins could not be zeroed; they were not used",
            )
        })?;
        Ok(CoinFile {
            rt,
            path,
            reader,
            eraser,
        })
    }

    pub(crate) fn read(&mut self) -> Result<Vec<u8>, Trouble> {
        let mut coins = Vec::new(self.rt.alloc());
        match self.reader.read_to_end(&mut coins) {
            Ok(_) => Ok(coins),
            Err(_) => Err(self.trouble("could not be read to its end; its coins were not used")),
        }
    }

    // Overwrites the file from its start.
    pub(crate) fn overwrite(&mut self, zeros: &[u8]) -> Result<(), Trouble> {
        write_and_flush(&mut self.eraser, zeros).map_err(|_| {
            self.trouble(
                "could not be overwritten with zeros: destroy this file, and draw new coins",
            )
        })
    }

    fn trouble(&self, what: &str) -> Trouble {
        Trouble::of_file(self.rt.alloc(), self.path, what)
    }
}

fn open(rt: &HostRuntime, path: &str) -> Result<File, Trouble> {
    File::open(rt, path).map_err(|e| Trouble::of_file(rt.alloc(), path, why_not_read(e.kind())))
}

fn why_not_read(kind: ErrorKind) -> &'static str {
    match kind {
        ErrorKind::NotFound => "there is no such file",
        ErrorKind::PermissionDenied => "you may not read this file",
        _ => "cannot be read",
    }
}

// Reads a card or a record. Of a file that is longer than any set has them only the start is read, which is too long as well.
pub(crate) fn read_input(rt: &HostRuntime, path: &str) -> Result<Vec<u8>, Trouble> {
    let file = open(rt, path)?;
    let mut bytes = Vec::new(rt.alloc());
    match file.take(MOST).read_to_end(&mut bytes) {
        Ok(_) => Ok(bytes),
        Err(_) => Err(Trouble::of_file(rt.alloc(), path, "cannot be read")),
    }
}

fn write_and_flush(file: &mut File, bytes: &[u8]) -> io::Result<()> {
    file.write_all(bytes)?;
    file.sync_all()
}

// An empty file that was made for an output. It is filled or taken away again.
pub(crate) struct Output<'r, 'a> {
    rt: &'r HostRuntime,
    path: &'a str,
    at_stake: AtStake,
    file: File,
}

impl<'r, 'a> Output<'r, 'a> {
    // Makes an empty file where none is.
    pub(crate) fn reserve(
        rt: &'r HostRuntime,
        path: &'a str,
        at_stake: AtStake,
    ) -> Result<Output<'r, 'a>, Trouble> {
        let file = File::create_new(rt, path).map_err(|e| Trouble::of_file(
            rt.alloc(),
            path,
            why_not_made(e.kind(), at_stake),
        ))?;
        Ok(Output {
            rt,
            path,
            at_stake,
            file,
        })
    }

    // Fills the file with what was made, and answers how many bytes that is. Where nothing was made or it cannot be filled, takes the
    // file away again.
    pub(crate) fn settle(self, made: Result<Vec<u8>, Trouble>) -> Result<usize, Trouble> {
        let Output {
            rt,
            path,
            at_stake,
            mut file,
        } = self;
        let settled = made.and_then(|bytes| {
            match write_and_flush(&mut file, bytes.as_slice()) {
                Ok(()) => Ok(bytes.len()),
                Err(_) => Err(Trouble::of_file(rt.alloc(), path, why_not_filled(at_stake))),
            }
        });
        if settled.is_err() {
            // Where that fails too, an empty file is left.
            let _ = fs::remove_file(rt, path);
        }
        settled
    }
}

fn why_not_made(kind: ErrorKind, at_stake: AtStake) -> &'static str {
    match at_stake {
        AtStake::Coins => match kind {
            ErrorKind::AlreadyExists =>
                "is there already and stays as it is; give the output a new name. The coins were not touched",
            ErrorKind::NotFound => "its folder is not there; the coins were not touched",
            _ => "cannot be made here; the coins were not touched",
        },
        AtStake::Nothing => match kind {
            ErrorKind::AlreadyExists =>
                "is there already and stays as it is; give the output a new name",
            ErrorKind::NotFound => "its folder is not there",
            _ => "cannot be made here",
        },
    }
}

fn why_not_filled(at_stake: AtStake) -> &'static str {
    match at_stake {
        AtStake::Coins =>
            "could not be written and was taken away again; the coins are spent, draw new ones",
        AtStake::Nothing => "could not be written and was taken away again",
    }
}
