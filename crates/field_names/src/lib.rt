// The names of the standard's fields, put to an output. Internal: `explain_lines` calls `put_name`.
#![tactic(auto)]

ghost use Rattle.std.specs.Prelude.{◌≡◌, length, map};
ghost use Rattle.octets.specs.Tables.{name_for};
ghost use Rattle.text.specs.Text.{text};
ghost use Rattle.text.specs.Output.{HasRoom, Adds};
ghost use Rattle.fields.specs.Fields.{rows_of};
ghost use Rattle.field_names.specs.Names.{name_of};

use fields::Table;
use text::Output;

const CHUNK_NAMES: [&[u8]; 10] = [
    b"FIC_chunk_major_protocol_version",
    b"FIC_chunk_minor_protocol_version",
    b"FIC_chunk_header_extension_length",
    b"ensemble_loop_header_extension_length",
    b"MH_service_loop_extension_length",
    b"reserved",
    b"current_next_indicator",
    b"transport_stream_id",
    b"header_extension_byte",
    b"num_ensembles",
];

const ENSEMBLE_NAMES: [&[u8]; 9] = [
    b"ensemble_id",
    b"reserved",
    b"ensemble_protocol_version",
    b"SLT_ensemble_indicator",
    b"GAT_ensemble_indicator",
    b"EAT_ensemble_indicator",
    b"MH_service_signaling_channel_version",
    b"ensemble_loop_header_extension_byte",
    b"num_MH_services",
];

const SERVICE_NAMES: [&[u8]; 6] = [
    b"MH_service_id",
    b"reserved",
    b"multi_ensemble_service",
    b"MH_service_status",
    b"SP_indicator",
    b"MH_service_loop_extension_byte",
];

const SEGMENT_NAMES: [&[u8]; 8] = [
    b"FIC_segment_type",
    b"reserved",
    b"wake_up_indicator",
    b"FIC_chunk_major_protocol_version",
    b"current_next_indicator",
    b"error_indicator",
    b"FIC_segment_num",
    b"FIC_last_segment_num",
];

// The names of a table's rows.
fn names(table: Table) -> &'static [&'static [u8]]
    ensures { map (λ name. name.now) result.now ≡ map (λ row. text (name_for row)) (rows_of table) }
{
    match table {
        Table::Chunk => &CHUNK_NAMES,
        Table::Ensemble => &ENSEMBLE_NAMES,
        Table::Service => &SERVICE_NAMES,
        Table::Segment => &SEGMENT_NAMES,
    }
}

// Puts the name of a row of a table, none where it has no such row.
pub fn put_name(table: Table, row: u8, out: &mut Output<'_>)
    requires { HasRoom (length (name_of table row)) out.old }
    ensures { Adds (name_of table row) out.old out.new }
{
    if let Some(name) = names(table).get(row as usize) {
        out.put(name);
    }
}
