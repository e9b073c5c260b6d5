//! The whole case of docs/RULES.md, 18.5, as a table with one row, and what 18.5 and 18.9 to 18.11 say of it; and a
//! table whose listing takes more than one write.

pub(crate) static TABLE: [u8; 160] = [
    // the header: one row, records of 128 bytes, the directory at 20, the records at 32, row 0 is the base
    1, 0, 0, 0, 128, 0, 0, 0, 20, 0, 0, 0, 32, 0, 0, 0, 0, 0, 0, 0,
    // the row: record 40, at 32
    40, 0, 0, 0, 0, 0, 0, 0, 32, 0, 0, 0,
    // the record
    70, 73, 76, 69, 0, 0, 0, 0, 0, 0, 0, 0, 0, 0, 0, 0, 1, 0, 1, 0, 56, 0, 1, 0, 116, 0, 0, 0, 128,
    0, 0, 0, 0, 0, 0, 0, 0, 0, 0, 0, 0, 0, 0, 0, 0, 0, 0, 0, 0, 0, 0, 0, 0, 0, 0, 0,
    // its two attributes, the end marker and what is left
    16, 0, 0, 0, 32, 0, 0, 0, 0, 0, 0, 0, 0, 0, 0, 0, 8, 0, 0, 0, 24, 0, 0, 0, 1, 2, 3, 4, 5, 6, 7,
    8, 128, 0, 0, 0, 24, 0, 0, 0, 0, 0, 0, 0, 0, 0, 1, 0, 0, 0, 0, 0, 24, 0, 0, 0, 255, 255, 255,
    255, 0, 0, 0, 0, 0, 0, 0, 0, 0, 0, 0, 0,
];

/// The record that it holds, by its number and by where it stands.
pub(crate) const NUMBER: u64 = 40;

pub(crate) const RECORDS: usize = 32;

pub(crate) const LISTING: &[u8] = b"record 40 size 128\n\
    attr 40 56 16 32 0 name 0 0 value resident 80 8\n\
    attr 40 88 128 24 1 name 0 0 value resident 112 0\n\
    end reads 2\n";

pub(crate) const LISTING_JSON: &[u8] = b"{\"line\":\"record\",\"number\":40,\"size\":128}\n\
    {\"line\":\"attr\",\"record\":40,\"offset\":56,\"type\":16,\"length\":32,\"instance\":0,\
    \"name_offset\":0,\"name_bytes\":0,\"value\":\"resident\",\"value_offset\":80,\"value_bytes\":8}\n\
    {\"line\":\"attr\",\"record\":40,\"offset\":88,\"type\":128,\"length\":24,\"instance\":1,\
    \"name_offset\":0,\"name_bytes\":0,\"value\":\"resident\",\"value_offset\":112,\"value_bytes\":0}\n\
    {\"line\":\"end\",\"reads\":2}\n";

pub(crate) const ROWS_JSON: &[u8] =
    b"{\"line\":\"row\",\"number\":40,\"place\":32,\"state\":\"used\"}\n{\"line\":\"end\",\"rows\":1}\n";

pub(crate) const RECORD_JSON: &[u8] = b"{\"line\":\"record\",\"number\":40,\"size\":128}\n\
    {\"line\":\"header\",\"sequence\":1,\"links\":1,\"first\":56,\"flags\":1,\"used\":116,\"allocated\":128}\n\
    {\"line\":\"attr\",\"record\":40,\"offset\":56,\"type\":16,\"length\":32,\"instance\":0,\
    \"name_offset\":0,\"name_bytes\":0,\"value\":\"resident\",\"value_offset\":80,\"value_bytes\":8}\n\
    {\"line\":\"attr\",\"record\":40,\"offset\":88,\"type\":128,\"length\":24,\"instance\":1,\
    \"name_offset\":0,\"name_bytes\":0,\"value\":\"resident\",\"value_offset\":112,\"value_bytes\":0}\n\
    {\"line\":\"end\"}\n";

// A record of 4,096 bytes has room for so many attributes of 16 bytes between its header and the end marker.
const ATTRIBUTES: usize = 248;

const LONG: usize = RECORDS + 4096;

/// A table of one record with 248 attributes, and the front and the end of its listing.
pub(crate) fn long_table() -> [u8; LONG] {
    let mut bytes = [0u8; LONG];
    bytes[..RECORDS].copy_from_slice(&TABLE[..RECORDS]);
    // records of 4,096 bytes
    bytes[4] = 0;
    bytes[5] = 16;
    bytes[RECORDS..RECORDS + 4].copy_from_slice(b"FILE");
    bytes[RECORDS + 20] = 56;
    // its used size, 4,096
    bytes[RECORDS + 25] = 16;
    for k in 0..ATTRIBUTES {
        let at = RECORDS + 56 + 16 * k;
        bytes[at] = 16;
        bytes[at + 4] = 16;
    }
    bytes[LONG - 72..LONG - 68].copy_from_slice(&[255; 4]);
    bytes
}

pub(crate) const LONG_FRONT: &[u8] = b"record 40 size 4096\n\
    attr 40 56 16 16 0 name 0 0 value refused 7\n\
    attr 40 72 16 16 0 name 0 0 value refused 7\n";

pub(crate) const LONG_END: &[u8] = b"\n\
    attr 40 4008 16 16 0 name 0 0 value refused 7\n\
    end reads 248\n";
