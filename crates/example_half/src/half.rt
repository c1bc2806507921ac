//! A half: its side and its uploaded programs.
use crate::line;
use crate::line::{Line, bytes, number, program_id, small_number};
use crate::refused::Refused;
use heal::{
    Builtin, Finished, Owner, ProgramId, Registration, ResolverId, Side, SideId, UploadStore,
    decode_offer, decode_withdrawals, encode_offer, encode_withdrawals, name,
};
use std::alloc::{AllocError, Global};

/// The answer to a line. Messages are in hex digits.
#[derive(Debug, Drop)]
pub(crate) enum Reply {
    Done,
    Program(ProgramId),
    Offer(String),
    List(String),
    Finished(Finished),
    Names,
}

/// One half of a cluster.
#[derive(Debug, Drop)]
pub(crate) struct Half {
    alloc: Global,
    side: Side,
    store: UploadStore,
}

impl Half {
    /// A half without names and programs.
    pub(crate) fn new(alloc: Global, id: SideId) -> Half {
        Half {
            alloc,
            side: Side::new(alloc, id),
            store: UploadStore::new(alloc),
        }
    }

    /// Its side.
    pub(crate) fn side(&self) -> &Side {
        &self.side
    }

    /// Carries out a line.
    pub(crate) fn obey(&mut self, text: &str) -> Result<Reply, Refused> {
        let Line { word, count, rest } = line::split(text)?;
        let [first, second, third, fourth, fifth] = rest;
        match (word, count) {
            ("upload", 1) => self.upload(first),
            ("register", 5) => self.register(first, [second, third, fourth], fifth),
            ("begin", 3) => self.begin(first, second, third),
            ("hear", 1) => self.hear(first),
            ("settle", 0) => self.settle(),
            ("withdraw", 1) => self.withdraw(first),
            ("close", 0) => self.close(),
            ("hear-list", 1) => self.hear_list(first),
            ("finish", 0) => self.finish(),
            ("abandon", 0) => self.abandon(),
            ("names", 0) => Ok(Reply::Names),
            _ => Err(Refused::words()),
        }
    }

    fn upload(&mut self, code: &str) -> Result<Reply, Refused> {
        let code = bytes(self.alloc, code)?;
        Ok(Reply::Program(self.store.upload(self.alloc, &code)?))
    }

    fn register(
        &mut self,
        text: &str,
        [node, serial, stamp]: [&str; 3],
        resolver: &str,
    ) -> Result<Reply, Refused> {
        let registration = Registration {
            owner: Owner {
                node: small_number(node)?,
                serial: small_number(serial)?,
            },
            stamp: number(stamp)?,
            weight: 0,
            extra: [0; 16],
            resolver: resolver_id(resolver)?,
        };
        let name = name(text.as_bytes())?;
        self.side.register(name, registration, &self.store)?;
        Ok(Reply::Done)
    }

    fn begin(&mut self, of_exchange: &str, seed: &str, uptime: &str) -> Result<Reply, Refused> {
        let (of_exchange, seed, uptime) = (number(of_exchange)?, number(seed)?, number(uptime)?);
        let offer = self.side.begin(self.alloc, of_exchange, seed, uptime)?;
        Ok(Reply::Offer(self.digits(encode_offer(self.alloc, &offer))?))
    }

    fn hear(&mut self, message: &str) -> Result<Reply, Refused> {
        let offer = decode_offer(self.alloc, &bytes(self.alloc, message)?)?;
        self.side.hear(self.alloc, &offer)?;
        Ok(Reply::Done)
    }

    fn settle(&mut self) -> Result<Reply, Refused> {
        self.side.settle()?;
        Ok(Reply::Done)
    }

    fn withdraw(&mut self, text: &str) -> Result<Reply, Refused> {
        self.side.withdraw(&name(text.as_bytes())?)?;
        Ok(Reply::Done)
    }

    fn close(&mut self) -> Result<Reply, Refused> {
        let list = self.side.close_list(self.alloc)?;
        Ok(Reply::List(self.digits(encode_withdrawals(self.alloc, &list))?))
    }

    fn hear_list(&mut self, message: &str) -> Result<Reply, Refused> {
        let list = decode_withdrawals(self.alloc, &bytes(self.alloc, message)?)?;
        self.side.hear_list(&list)?;
        Ok(Reply::Done)
    }

    fn finish(&mut self) -> Result<Reply, Refused> {
        Ok(Reply::Finished(self.side.finish(self.alloc)?))
    }

    fn abandon(&mut self) -> Result<Reply, Refused> {
        self.side.abandon()?;
        Ok(Reply::Done)
    }

    // The hex digits of a message.
    fn digits(&self, message: Result<Vec<u8>, AllocError>) -> Result<String, Refused> {
        let message = message.map_err(Refused::memory)?;
        hex::encode(self.alloc, message.as_slice()).map_err(Refused::memory)
    }
}

// The resolver that a word names: a built-in one, or a program by its id in hex digits.
fn resolver_id(text: &str) -> Result<ResolverId, Refused> {
    Ok(match Builtin::of_word(text.as_bytes()) {
        Some(builtin) => ResolverId::Builtin(builtin),
        None => ResolverId::Program(program_id(text)?),
    })
}
