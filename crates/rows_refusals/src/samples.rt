//! Profiles that rows name, with what is packed and read by them.

use crate::bits::bits_of;
use crate::stop::Stop;
use cert_accepted::Accepted;
use cert_check::{CheckError, check};
use cert_prove::{Unproved, prove};
use cert_types::{Certificate, Version};
use sem_bits::Bits;
use sem_context::Context;
use sem_filling::Item;
use sem_profile::Profile;
use sqlite_items::Items;
use std::alloc::Global;
use text_resolve::read;

/// A profile by its top and its text, the version of its certificate, the text of a context, two items, and bits of which the first seven are no packet's.
#[derive(Clone, Copy)]
pub(crate) struct Sample {
    top: &'static str,
    text: &'static str,
    version: Version,
    context: &'static str,
    item: &'static str,
    next: &'static str,
    bits: &'static str,
}

const TICK: Sample = Sample {
    top: "tick",
    text: "tick\n{\n  UNCOMPRESSED { sn [8]; }\n  COMPRESSED short {\n    d =:= '0' [1];\n    sn =:= lsb(4, 1) [4];\n    c =:= crc(3, 0x06, 0x07, THIS.UVALUE, THIS.ULENGTH) [3];\n  }\n  COMPRESSED full { d =:= '1' [1]; sn =:= irregular(8) [8]; }\n}\n",
    version: Version::One,
    context: "sn 8:00\n",
    item: "8:01",
    next: "8:02",
    bits: "24:fffe08",
};

const OPT: Sample = Sample {
    top: "opt",
    text: "inner(flag, width)\n{\n  UNCOMPRESSED { field [width]; }\n  COMPRESSED all { ENFORCE(flag == 1); field =:= irregular(width) [width]; }\n  COMPRESSED none { ENFORCE(flag == 0); field =:= static [0]; }\n}\nopt\n{\n  UNCOMPRESSED { ttl [8]; }\n  COMPRESSED { flag =:= irregular(1) [1]; ttl =:= inner(flag.CVALUE, 8) [0, 8]; }\n}\n",
    version: Version::One,
    context: "ttl.field 8:40\nttl 8:40\n",
    item: "8:41",
    next: "8:41",
    bits: "24:ffffff",
};

const LONG: Sample = Sample {
    top: "long",
    text: "long\n{\n  UNCOMPRESSED { a [64]; b [64]; c [8]; }\n  COMPRESSED { a =:= irregular(64) [64]; b =:= irregular(64) [64]; c =:= irregular(8) [8]; }\n}\n",
    version: Version::One,
    context: "",
    item: "136:0102030405060708090a0b0c0d0e0f1011",
    next: "136:1102030405060708090a0b0c0d0e0f1011",
    bits: "160:0102030405060708090a0b0c0d0e0f1011121314",
};

// Its formats are told apart by what the context holds.
const MODE: Sample = Sample {
    top: "mode",
    text: "mode\n{\n  UNCOMPRESSED { x [8]; }\n  CONTROL { m =:= static [1]; }\n  INITIAL { m =:= uncompressed_value(1, 0); }\n  COMPRESSED a { ENFORCE(m.UVALUE == 0); x =:= irregular(8) [8]; }\n  COMPRESSED b { ENFORCE(m.UVALUE == 1); x =:= lsb(4, 0) [4]; }\n}\n",
    version: Version::Two,
    context: "m 1:80\nx 8:10\n",
    item: "8:11",
    next: "8:12",
    bits: "24:ffffff",
};

// A value is learned by a remainder, and the call's tree looks into the context.
const NEST: Sample = Sample {
    top: "nest",
    text: "part(k)\n{\n  UNCOMPRESSED { v [3]; }\n  CONTROL { m [1]; s [3]; ENFORCE(s.UVALUE == (k + v.UVALUE) % 8); }\n  INITIAL { m =:= uncompressed_value(1, 1); }\n  COMPRESSED near { d =:= '0' [1]; ENFORCE(m.UVALUE == 0); m =:= static [0]; s =:= lsb(1, 0) [1]; }\n  COMPRESSED far { d =:= '0' [1]; ENFORCE(m.UVALUE != 0); m =:= static [0]; s =:= lsb(2, 0) [2]; }\n  COMPRESSED full { d =:= '1' [1]; m =:= uncompressed_value(1, k) [0]; s =:= irregular(3) [3]; }\n}\nnest\n{\n  UNCOMPRESSED { g [1]; f [3]; }\n  COMPRESSED { g =:= irregular(1) [1]; f =:= part(g.UVALUE) [2, 3, 4]; }\n}\n",
    version: Version::Two,
    context: "",
    item: "4:90",
    next: "4:a0",
    bits: "24:ffffff",
};

/// The sample of a name.
pub(crate) fn sample_of(name: &str) -> Result<Sample, Stop> {
    match name {
        "tick" => Ok(TICK),
        "opt" => Ok(OPT),
        "long" => Ok(LONG),
        "mode" => Ok(MODE),
        "nest" => Ok(NEST),
        _ => Err(Stop::Row("no such profile")),
    }
}

impl Sample {
    pub(crate) fn profile(&self, alloc: Global) -> Result<Profile, Stop> {
        Ok(read(alloc, self.text.as_bytes(), self.top.as_bytes())?)
    }

    /// The certificate that `prove` makes of the profile.
    pub(crate) fn certificate(
        &self,
        alloc: Global,
        profile: &Profile,
    ) -> Result<Certificate, Stop> {
        match prove(alloc, profile, self.version) {
            Ok(certificate) => Ok(certificate),
            Err(Unproved::OutOfMemory) => Err(Stop::Memory),
            Err(_) => Err(Stop::Row("no certificate")),
        }
    }

    pub(crate) fn accepted(&self, alloc: Global) -> Result<Accepted, Stop> {
        let profile = self.profile(alloc)?;
        let certificate = self.certificate(alloc, &profile)?;
        match check(alloc, profile, certificate) {
            Ok(accepted) => Ok(accepted),
            Err(refusal) => match refusal.error {
                CheckError::OutOfMemory => Err(Stop::Memory),
                CheckError::Fault(_) => Err(Stop::Row("not accepted")),
            },
        }
    }

    pub(crate) fn context(&self, alloc: Global) -> Result<Context, Stop> {
        Ok(Context::read_text(alloc, self.context)?)
    }

    pub(crate) fn item(&self, alloc: Global) -> Result<Item, Stop> {
        item_of(alloc, self.item)
    }

    pub(crate) fn next(&self, alloc: Global) -> Result<Item, Stop> {
        item_of(alloc, self.next)
    }

    pub(crate) fn bits(&self, alloc: Global) -> Result<Bits, Stop> {
        bits_of(alloc, self.bits)
    }
}

fn item_of(alloc: Global, word: &str) -> Result<Item, Stop> {
    Ok(Item {
        header: bits_of(alloc, word)?,
        asked: Items::new(alloc),
    })
}
