ghost use Rattle.std.specs.Prelude.{◌≡◌, ◌≤◌, IfErr, IfOk};
ghost use Rattle.voy_disk.specs.Faults.{Rose};
ghost use Rattle.voy_disk.specs.Files.{IfTold};
ghost use Rattle.voy_command.specs.Files.{file_bytes, schema_name};
ghost use Rattle.voy_command.specs.Recorded.{recorded_schema};
ghost use Rattle.voy_command.specs.Stops.{RefusesSchema, StopsSchema};

use crate::answer::{Answer, Cause, Which, disk_stop};
use crate::names::schema_file;
use std::alloc::Global;
use voy_disk::Disk;
use voy_files::read_file;
use voy_schema::{Schema, SchemaError};

/// The recorded schema.
pub fn read_schema<D: Disk>(alloc: Global, recording: &mut D) -> Result<Schema, Answer>
    ensures ok { IfOk result (λ schema. IfTold (D.files recording.old) (λ fs. recorded_schema (file_bytes (fs schema_name)) ≡ Ok schema.tables)) }
    ensures err { IfErr result (StopsSchema (D.files recording.old) (Rose (D.faults recording.old) (D.faults recording.new))) }
    ensures same { D.files recording.new ≡ D.files recording.old }
    ensures later { D.faults recording.old ≤ D.faults recording.new }
{
    let Ok(name) = schema_file(alloc) else {
        return Err(Answer::NoMemory);
    };
    match read_file(alloc, recording, &name) {
        Ok(Some(bytes)) => schema_of(alloc, bytes.as_slice()),
        Ok(None) => Err(Answer::Refused(Cause::MissingSchema)),
        Err(error) => Err(disk_stop(Which::Recording, error)),
    }
}

fn schema_of(alloc: Global, bytes: &[u8]) -> Result<Schema, Answer>
    ensures ok { IfOk result (λ schema. recorded_schema (Some bytes.now) ≡ Ok schema.tables) }
    ensures err { IfErr result (RefusesSchema (λ cause. recorded_schema (Some bytes.now) ≡ Err cause)) }
{
    match Schema::read(alloc, bytes) {
        Ok(schema) => Ok(schema),
        Err(SchemaError::Bad { table, why }) => Err(Answer::Refused(Cause::Schema { table, why })),
        Err(SchemaError::NoMemory) => Err(Answer::NoMemory),
    }
}
