//! Steps by a field's library method: the uncompressed side, or the compressed one.

ghost use Rattle.std.specs.Prelude.{◌≡◌, ◌≤◌, [], true, length, IfOk, IfErr, OnOk, OnErr};
ghost use Rattle.sem_profile.specs.BoundsLaws.{library_exprs};
ghost use Rattle.cert_types.specs.declared.certificate.Step.TheVariants as step;
ghost use Rattle.cert_types.specs.declared.certificate.Version.TheVariants.{Two};
ghost use Rattle.sem_library.specs.Methods.{IsOnly};
ghost use Rattle.cert_rules.specs.Reading.{known_sides};
ghost use Rattle.cert_rules.specs.Rules as rules;
ghost use Rattle.cert_rules.specs.Slots.{knows_all, bits_of, learnt_at};
ghost use Rattle.cert_rules.specs.Steps.{UpIs, DownIs};
ghost use Rattle.walk_steps.specs.Finding as spec;

use crate::Partial;
use crate::fault::StepFault;
use crate::findings::learn_bits;
use crate::level_frame::LevelFrame;
use crate::methods::{checksum, copied, low_part, lsb_found, spelled};
use crate::reference::reference_in;
use sem_bits::Bits;
use sem_expr::{Side, Subject};
use sem_profile::{CrcArguments, Encoding, Field, Library};
use std::alloc::{AllocError, Global};

/// Learns the uncompressed side that the field's library method gives. The error is Refused or out of memory.
pub fn library_up(
    alloc: Global,
    level_frame: &LevelFrame<'_>,
    level: &mut Partial<'_>,
    field: usize,
) -> Result<(), StepFault>
    requires at { spec.IsAt level_frame.now level.old }
    requires ready { spec.IsReady level.old (rules.common_rule Two level.old.sizes level.old.format (step.LibraryUp field)) }
    ensures learns { OnOk result (spec.Learns level_frame.now (rules.common_rule Two level.old.sizes level.old.format (step.LibraryUp field)) level.old level.new) }
    ensures fault { IfErr result (λ e. spec.Blames e level_frame.now level.old) }
    ensures stays { OnErr result (level.new ≡ level.old) }
{
    level.keeps();
    let Some(coded) = level.format().fields.get(field) else {
        return Err(StepFault::Refused);
    };
    let Encoding::Library(library) = coded.encoding.get() else {
        return Err(StepFault::Refused);
    };
    let found = upward(alloc, level_frame, level, field, coded, library)?;
    learn_bits(level_frame, level, field, Side::Uncompressed, found)
}

/// The one uncompressed side that the method gives, if it gives one.
fn upward(
    alloc: Global,
    level_frame: &LevelFrame<'_>,
    level: &Partial<'_>,
    field: usize,
    coded: &Field,
    library: &Library,
) -> Result<Option<Bits>, AllocError>
    requires asked { spec.AllAsked level.now (library_exprs library.now) }
    requires known { knows_all level.now.format level.now.slots (rules.up_needs level.now.format field library.now) ≡ true }
    ensures { IfOk result (IsOnly (UpIs (spec.shown_numbers level.now) (spec.reference_at level_frame.now coded.now) (bits_of (learnt_at level.now.slots field Side.Compressed)) library.now)) }
{
    match library {
        Library::UncompressedValue { length, value } => {
            spelled(alloc, level.value(length), level.value(value))
        }
        Library::Irregular { .. } => copied(alloc, level.bits(field, Side::Compressed)),
        Library::Static => copied(alloc, reference_in(alloc, level_frame, coded)?),
        Library::Lsb { bits, offset } => {
            let Some(compressed) = level.bits(field, Side::Compressed) else {
                return Ok(None);
            };
            let reference = reference_in(alloc, level_frame, coded)?;
            lsb_found(
                alloc,
                level.value(bits),
                level.value(offset),
                reference,
                compressed,
            )
        }
        Library::CompressedValue { .. } | Library::Crc(_) => Ok(Some(Bits::new(alloc))),
    }
}

/// Learns the compressed side that the field's library method gives. The error is Refused or out of memory.
pub fn library_down(
    alloc: Global,
    level_frame: &LevelFrame<'_>,
    level: &mut Partial<'_>,
    field: usize,
) -> Result<(), StepFault>
    requires at { spec.IsAt level_frame.now level.old }
    requires ready { spec.IsReady level.old (rules.common_rule Two level.old.sizes level.old.format (step.LibraryDown field)) }
    ensures learns { OnOk result (spec.Learns level_frame.now (rules.common_rule Two level.old.sizes level.old.format (step.LibraryDown field)) level.old level.new) }
    ensures fault { IfErr result (λ e. spec.Blames e level_frame.now level.old) }
    ensures stays { OnErr result (level.new ≡ level.old) }
{
    level_frame.frame.profile.keeps();
    level.keeps();
    let Some(coded) = level.format().fields.get(field) else {
        return Err(StepFault::Refused);
    };
    let Encoding::Library(library) = coded.encoding.get() else {
        return Err(StepFault::Refused);
    };
    let found = downward(alloc, level, field, library)?;
    learn_bits(level_frame, level, field, Side::Compressed, found)
}

/// The one compressed side that the method gives, if it gives one, for at most 64 uncompressed bits.
fn downward(
    alloc: Global,
    level: &Partial<'_>,
    field: usize,
    library: &Library,
) -> Result<Option<Bits>, AllocError>
    requires asked { spec.AllAsked level.now (library_exprs library.now) }
    requires known { knows_all level.now.format level.now.slots (rules.down_needs level.now.format field library.now) ≡ true }
    ensures { IfOk result (λ o. length (bits_of (learnt_at level.now.slots field Side.Uncompressed)) ≤ 64 →
        IsOnly (DownIs (known_sides level.now.format level.now.slots) (spec.shown_numbers level.now) (bits_of (learnt_at level.now.slots field Side.Uncompressed)) library.now) o) }
{
    match library {
        Library::CompressedValue { length, value } => {
            spelled(alloc, level.value(length), level.value(value))
        }
        Library::Irregular { .. } => copied(alloc, level.bits(field, Side::Uncompressed)),
        Library::Lsb { bits, .. } => {
            let Some(uncompressed) = level.bits(field, Side::Uncompressed) else {
                return Ok(None);
            };
            low_part(alloc, level.value(bits), uncompressed)
        }
        Library::Crc(crc) => summed(alloc, level, crc.get()),
        Library::UncompressedValue { .. } | Library::Static => Ok(Some(Bits::new(alloc))),
    }
}

/// The checksum of the bits that a crc covers, those of its side.
fn summed(
    alloc: Global,
    level: &Partial<'_>,
    crc: &CrcArguments,
) -> Result<Option<Bits>, AllocError>
    requires asked { spec.AllAsked level.now (library_exprs (Library.Crc crc.now)) }
    requires known { knows_all level.now.format level.now.slots (rules.down_needs level.now.format 0 (Library.Crc crc.now)) ≡ true }
    ensures { IfOk result (IsOnly (DownIs (known_sides level.now.format level.now.slots) (spec.shown_numbers level.now) [] (Library.Crc crc.now))) }
{
    level.keeps();
    let bits = level.value(&crc.bits);
    let polynomial = level.value(&crc.polynomial);
    let initial = level.value(&crc.initial);
    let len = level.value(&crc.length);
    match crc.subject {
        Subject::Field(index) => {
            let Some(covered) = level.bits(index, crc.side) else {
                return Ok(None);
            };
            checksum(alloc, bits, polynomial, initial, len, covered)
        }
        Subject::This => {
            let Some(covered) = level.whole(alloc, crc.side)? else {
                return Ok(None);
            };
            checksum(alloc, bits, polynomial, initial, len, &covered)
        }
    }
}
