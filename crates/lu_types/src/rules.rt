//! The rules that a file can break: their numbers, and the names that are printed.
//!
//! A rule is broken where its line is true.

ghost use Rattle.std.specs.Prelude.{◌≡◌};
ghost use Rattle.std.specs.Option.{option_copied};
ghost use Rattle.lu_grammar.specs.Records.{rule_of};
ghost use Rattle.lu_types.specs.Rules.{name_of_rule, general_rules, commit_rules, compound_rules, field_table_rules, stored_rules, term_rules, entry_rules, mark_rules, vector_rules, name_in};

use lu_grammar::Bad;
pub use lu_grammar::{ENDS, LONG_NUMBER, MISSING, NOT_UTF8, TOO_GREAT, TRAILING};

/// Rule: the format number of a commit is not -9.
pub const FORMAT: u16 = 10;
/// Rule: the version of a commit is negative.
pub const VERSION: u16 = 11;
/// Rule: the name counter of a commit is negative.
pub const NAME_COUNTER: u16 = 12;
/// Rule: the number of segments of a commit is negative.
pub const SEG_COUNT: u16 = 13;
/// Rule: the name of a segment is no segment name.
pub const SEG_NAME: u16 = 14;
/// Rule: a segment before in the commit has the name.
pub const SEG_TWICE: u16 = 15;
/// Rule: the size of a segment is negative or over 2^31 - 2.
pub const SEG_SIZE: u16 = 16;
/// Rule: the sizes of the segments so far sum to over 2^31 - 2.
pub const SIZE_SUM: u16 = 17;
/// Rule: the generation of the deletions of a segment is neither -1 nor at least 1.
pub const DEL_GEN: u16 = 18;
/// Rule: the offset of a segment in a shared store is below -1.
pub const SHARED_STORE: u16 = 19;
/// Rule: the flag of the single norm file is not 1.
pub const OLD_NORMS: u16 = 20;
/// Rule: the number of norm generations of a segment is below -1.
pub const NUM_FIELD: u16 = 21;
/// Rule: a norm generation of a segment is neither -1 nor at least 1.
pub const SEPARATE_NORMS: u16 = 22;
/// Rule: the compound flag of a segment is neither 01 nor FF.
pub const COMPOUND_FLAG: u16 = 23;
/// Rule: the number of deleted documents is negative, over the size of the segment, or not 0 in a segment without deletions.
pub const DELETION_COUNT: u16 = 24;
/// Rule: the flag that positions are there is neither 0 nor 1.
pub const PROX_FLAG: u16 = 25;
/// Rule: the number of pairs of a map is negative.
pub const MAP_COUNT: u16 = 26;
/// Rule: the checksum of a commit is not that of all bytes before it.
pub const CHECKSUM: u16 = 27;
/// Rule: the name of a shared store is there and is no segment name.
pub const STORE_NAME: u16 = 28;
/// Rule: the compound flag of a shared store is there and is neither 0 nor 1.
pub const STORE_FLAG: u16 = 29;

/// Rule: the offset of an entry is below that of the entry before (below 0 for the first), or over the length of the file.
pub const CFS_OFFSET: u16 = 30;
/// Rule: an entry before in the compound file has the name.
pub const CFS_TWICE: u16 = 31;
/// Rule: the first offset is not the place just after the last entry of the directory.
pub const CFS_FIRST: u16 = 32;

/// Rule: the format number of a field table is not -2.
pub const FNM_FORMAT: u16 = 35;
/// Rule: a field before in the table has the name.
pub const FIELD_TWICE: u16 = 36;
/// Rule: bit 80 of a field is set.
pub const FIELD_BITS: u16 = 37;
/// Rule: a field has bit 01 and not bit 40, in a segment without positions.
pub const PROX_FIELD: u16 = 38;
/// Rule: the segment states a number of norm generations that is not the number of fields.
pub const NORM_COUNT: u16 = 39;

/// Rule: the format number of `.fdx` is not 2.
pub const FDX_FORMAT: u16 = 40;
/// Rule: the first place in `.fdx` is not 4, a later one is not above the one before, or one is over 2^31 - 1.
pub const FDX_PLACE: u16 = 41;
/// Rule: the store is shared, and its offset plus the size of the segment is above the number of its documents.
pub const STORE_RANGE: u16 = 42;
/// Rule: the format number of `.fdt` is not 2.
pub const FDT_FORMAT: u16 = 43;
/// Rule: a document of `.fdt` does not start at its place in `.fdx`.
pub const FDT_PLACE: u16 = 44;
/// Rule: a document is in the window, and the field table has no field with the number of a stored value of it.
pub const STORED_FIELD: u16 = 45;
/// Rule: a stored value has a bit other than 01 and 02.
pub const STORED_BITS: u16 = 46;

/// Rule: the format number of `.tis` is not -4.
pub const TIS_FORMAT: u16 = 50;
/// Rule: the number of terms is negative or over 2^31 - 1.
pub const TERM_COUNT: u16 = 51;
/// Rule: the index interval is below 1.
pub const INDEX_INTERVAL: u16 = 52;
/// Rule: the skip interval is below 2.
pub const SKIP_INTERVAL: u16 = 53;
/// Rule: the greatest number of skip levels is below 1.
pub const SKIP_LEVELS: u16 = 54;
/// Rule: the prefix of a term is longer than the text before it.
pub const TERM_PREFIX: u16 = 55;
/// Rule: the text of a term, prefix and suffix together, is not UTF-8.
pub const TERM_UTF8: u16 = 56;
/// Rule: the field table has no field with the number of a term, or one without bit 01.
pub const TERM_FIELD: u16 = 57;
/// Rule: a term is not above the term before it.
pub const TERM_ORDER: u16 = 58;
/// Rule: the number of documents of a term is 0 or over the size of the segment.
pub const DOC_FREQ: u16 = 59;
/// Rule: the place of a term in `.frq` or in `.prx` is over 2^31 - 1.
pub const TERM_PLACE: u16 = 60;
/// Rule: the format number of `.tii` is not -4.
pub const TII_FORMAT: u16 = 62;
/// Rule: the number of entries of `.tii` is not the number of terms divided by the index interval, rounded up.
pub const TII_COUNT: u16 = 63;
/// Rule: an interval or the number of skip levels in `.tii` is not that of `.tis`.
pub const TII_INTERVALS: u16 = 64;
/// Rule: the prefix of an entry of `.tii` is longer than the text before it.
pub const TII_PREFIX: u16 = 65;
/// Rule: an entry of `.tii` does not stand for the term that it belongs to.
pub const TII_TERM: u16 = 66;
/// Rule: the place of an entry of `.tii` is not where the term that it leads to starts in `.tis`.
pub const TII_PLACE: u16 = 67;

/// Rule: the entries of a term do not start at its place in `.frq`.
pub const FREQ_START: u16 = 70;
/// Rule: an entry that is not the first of its term has the document of the one before.
pub const DOC_ORDER: u16 = 71;
/// Rule: the document of an entry is not below the size of the segment.
pub const DOC_RANGE: u16 = 72;
/// Rule: a stated frequency is below 2.
pub const FREQ: u16 = 73;
/// Rule: the skip data of a term do not start as far from its entries as the term says.
pub const SKIP_START: u16 = 74;
/// Rule: the documents along a skip level do not sum to the document of the entry before the one that the datum belongs to.
pub const SKIP_DOC: u16 = 75;
/// Rule: the lengths in `.frq` along a skip level do not sum to the length of the entries passed.
pub const SKIP_FREQ: u16 = 76;
/// Rule: a skip datum passes bytes of `.prx`, in a field without positions.
pub const SKIP_OMIT: u16 = 77;
/// Rule: a child pointer does not lead to its datum of the level below.
pub const SKIP_CHILD: u16 = 78;
/// Rule: a skip level above the lowest has not the stated length.
pub const SKIP_LENGTH: u16 = 79;
/// Rule: the positions of a term do not start at its place in `.prx`.
pub const PROX_START: u16 = 80;
/// Rule: a position is over 2^31 - 1.
pub const POSITION: u16 = 81;
/// Rule: the lengths in `.prx` along a skip level do not sum to the length of the positions passed.
pub const SKIP_PROX: u16 = 82;
/// Rule: the payload length in force at a skip point is neither stated there nor the one that the skip level carries.
pub const SKIP_PAYLOAD: u16 = 83;

/// Rule: the file of norms `.nrm` does not begin with the bytes 4E 52 4D FF.
pub const NORM_HEADER: u16 = 85;
/// Rule: the size in `.del` is not that of the segment.
pub const DEL_SIZE: u16 = 87;
/// Rule: the count in `.del` is not the number of deleted documents that the commit states.
pub const DEL_COUNT: u16 = 88;
/// Rule: a gap of the sparse form is 0 and not the first, or leads past the last byte.
pub const DEL_GAP: u16 = 89;
/// Rule: a byte of the sparse form is 0.
pub const DEL_BYTE: u16 = 90;
/// Rule: a bit at or past the size is set.
pub const DEL_PAST: u16 = 91;
/// Rule: the number of set bits is not the count, or for a pair, the bits set so far are more than the count.
pub const DEL_TOTAL: u16 = 92;

/// Rule: the format number of `.tvx` is not 4.
pub const TVX_FORMAT: u16 = 95;
/// Rule: the first place in `.tvd` is not 4, a later one is not above the one before, or a place is negative or over 2^31 - 1.
pub const TVX_PLACE: u16 = 96;
/// Rule: the format number of `.tvd` is not 4.
pub const TVD_FORMAT: u16 = 98;
/// Rule: a document of `.tvd` does not start at its place in `.tvx`.
pub const TVD_PLACE: u16 = 99;
/// Rule: a document is in the window, and the field table has no field with the number of a vector of it, or one without bit 02.
pub const VECTOR_FIELD: u16 = 100;
/// Rule: a vector before in the document has the field.
pub const VECTOR_TWICE: u16 = 101;
/// Rule: the place of a vector in `.tvf` is over 2^31 - 1.
pub const TVF_SUM: u16 = 102;
/// Rule: the format number of `.tvf` is not 4.
pub const TVF_FORMAT: u16 = 105;
/// Rule: a vector does not start at its place in `.tvf`.
pub const TVF_PLACE: u16 = 106;
/// Rule: a vector has a bit other than 01 and 02.
pub const VECTOR_BITS: u16 = 107;
/// Rule: the prefix of a term of a vector is longer than the text before it.
pub const VECTOR_PREFIX: u16 = 108;
/// Rule: the text of a term of a vector, prefix and suffix together, is not UTF-8.
pub const VECTOR_UTF8: u16 = 109;
/// Rule: a term of a vector is not above the one before it.
pub const VECTOR_ORDER: u16 = 110;
/// Rule: the number of occurrences of a term of a vector is 0.
pub const VECTOR_FREQ: u16 = 111;
/// Rule: a position of a term of a vector is over 2^31 - 1.
pub const VECTOR_POSITION: u16 = 112;
/// Rule: the start or the end of an occurrence is over 2^31 - 1.
pub const VECTOR_OFFSET: u16 = 113;

/// The printed name of the rule with a number; `None` exactly where no rule has the number.
pub fn rule_name(rule: u16) -> Option<&'static str>
    ensures { option_copied result ≡ name_of_rule rule }
{
    general_name(rule)
        .or(commit_name(rule))
        .or(compound_name(rule))
        .or(field_table_name(rule))
        .or(stored_name(rule))
        .or(term_name(rule))
        .or(entry_name(rule))
        .or(mark_name(rule))
        .or(vector_name(rule))
}

/// The printed name of a rule on any file (format page, "How a fault is found").
#[tactic(auto, unfolding(crate::specs::Rules::general_rules))]
fn general_name(rule: u16) -> Option<&'static str>
    ensures { option_copied result ≡ name_in general_rules rule }
{
    match rule {
        ENDS => Some("Ends"),
        LONG_NUMBER => Some("LongNumber"),
        TOO_GREAT => Some("TooGreat"),
        NOT_UTF8 => Some("NotUtf8"),
        MISSING => Some("Missing"),
        TRAILING => Some("Trailing"),
        _ => None,
    }
}

/// The printed name of a rule on `segments_N` (format page, "segments_N").
#[tactic(auto, unfolding(crate::specs::Rules::commit_rules))]
fn commit_name(rule: u16) -> Option<&'static str>
    ensures { option_copied result ≡ name_in commit_rules rule }
{
    match rule {
        FORMAT => Some("Format"),
        VERSION => Some("Version"),
        NAME_COUNTER => Some("NameCounter"),
        SEG_COUNT => Some("SegCount"),
        SEG_NAME => Some("SegName"),
        SEG_TWICE => Some("SegTwice"),
        SEG_SIZE => Some("SegSize"),
        SIZE_SUM => Some("SizeSum"),
        DEL_GEN => Some("DelGen"),
        SHARED_STORE => Some("SharedStore"),
        OLD_NORMS => Some("OldNorms"),
        NUM_FIELD => Some("NumField"),
        SEPARATE_NORMS => Some("SeparateNorms"),
        COMPOUND_FLAG => Some("CompoundFlag"),
        DELETION_COUNT => Some("DeletionCount"),
        PROX_FLAG => Some("ProxFlag"),
        MAP_COUNT => Some("MapCount"),
        CHECKSUM => Some("Checksum"),
        STORE_NAME => Some("StoreName"),
        STORE_FLAG => Some("StoreFlag"),
        _ => None,
    }
}

/// The printed name of a rule on `.cfs` and `.cfx` (format page, "Compound files").
#[tactic(auto, unfolding(crate::specs::Rules::compound_rules))]
fn compound_name(rule: u16) -> Option<&'static str>
    ensures { option_copied result ≡ name_in compound_rules rule }
{
    match rule {
        CFS_OFFSET => Some("CfsOffset"),
        CFS_TWICE => Some("CfsTwice"),
        CFS_FIRST => Some("CfsFirst"),
        _ => None,
    }
}

/// The printed name of a rule on `.fnm` (format page, "Field tables").
#[tactic(auto, unfolding(crate::specs::Rules::field_table_rules))]
fn field_table_name(rule: u16) -> Option<&'static str>
    ensures { option_copied result ≡ name_in field_table_rules rule }
{
    match rule {
        FNM_FORMAT => Some("FnmFormat"),
        FIELD_TWICE => Some("FieldTwice"),
        FIELD_BITS => Some("FieldBits"),
        PROX_FIELD => Some("ProxField"),
        NORM_COUNT => Some("NormCount"),
        _ => None,
    }
}

/// The printed name of a rule on `.fdx` and `.fdt` (format page, "Stored documents").
#[tactic(auto, unfolding(crate::specs::Rules::stored_rules))]
fn stored_name(rule: u16) -> Option<&'static str>
    ensures { option_copied result ≡ name_in stored_rules rule }
{
    match rule {
        FDX_FORMAT => Some("FdxFormat"),
        FDX_PLACE => Some("FdxPlace"),
        STORE_RANGE => Some("StoreRange"),
        FDT_FORMAT => Some("FdtFormat"),
        FDT_PLACE => Some("FdtPlace"),
        STORED_FIELD => Some("StoredField"),
        STORED_BITS => Some("StoredBits"),
        _ => None,
    }
}

/// The printed name of a rule on `.tis` and `.tii` (format page, "Terms" and "Term index").
#[tactic(auto, unfolding(crate::specs::Rules::term_rules))]
fn term_name(rule: u16) -> Option<&'static str>
    ensures { option_copied result ≡ name_in term_rules rule }
{
    match rule {
        TIS_FORMAT => Some("TisFormat"),
        TERM_COUNT => Some("TermCount"),
        INDEX_INTERVAL => Some("IndexInterval"),
        SKIP_INTERVAL => Some("SkipInterval"),
        SKIP_LEVELS => Some("SkipLevels"),
        TERM_PREFIX => Some("TermPrefix"),
        TERM_UTF8 => Some("TermUtf8"),
        TERM_FIELD => Some("TermField"),
        TERM_ORDER => Some("TermOrder"),
        DOC_FREQ => Some("DocFreq"),
        TERM_PLACE => Some("TermPlace"),
        TII_FORMAT => Some("TiiFormat"),
        TII_COUNT => Some("TiiCount"),
        TII_INTERVALS => Some("TiiIntervals"),
        TII_PREFIX => Some("TiiPrefix"),
        TII_TERM => Some("TiiTerm"),
        TII_PLACE => Some("TiiPlace"),
        _ => None,
    }
}

/// The printed name of a rule on `.frq` and `.prx` (format page, "Entries and skip data" and "Positions").
#[tactic(auto, unfolding(crate::specs::Rules::entry_rules))]
fn entry_name(rule: u16) -> Option<&'static str>
    ensures { option_copied result ≡ name_in entry_rules rule }
{
    match rule {
        FREQ_START => Some("FreqStart"),
        DOC_ORDER => Some("DocOrder"),
        DOC_RANGE => Some("DocRange"),
        FREQ => Some("Freq"),
        SKIP_START => Some("SkipStart"),
        SKIP_DOC => Some("SkipDoc"),
        SKIP_FREQ => Some("SkipFreq"),
        SKIP_OMIT => Some("SkipOmit"),
        SKIP_CHILD => Some("SkipChild"),
        SKIP_LENGTH => Some("SkipLength"),
        PROX_START => Some("ProxStart"),
        POSITION => Some("Position"),
        SKIP_PROX => Some("SkipProx"),
        SKIP_PAYLOAD => Some("SkipPayload"),
        _ => None,
    }
}

/// The printed name of a rule on `.nrm`, `.sN` and `.del` (format page, "Norms" and "Deleted documents").
#[tactic(auto, unfolding(crate::specs::Rules::mark_rules))]
fn mark_name(rule: u16) -> Option<&'static str>
    ensures { option_copied result ≡ name_in mark_rules rule }
{
    match rule {
        NORM_HEADER => Some("NormHeader"),
        DEL_SIZE => Some("DelSize"),
        DEL_COUNT => Some("DelCount"),
        DEL_GAP => Some("DelGap"),
        DEL_BYTE => Some("DelByte"),
        DEL_PAST => Some("DelPast"),
        DEL_TOTAL => Some("DelTotal"),
        _ => None,
    }
}

/// The printed name of a rule on `.tvx`, `.tvd` and `.tvf` (format page, "Term vectors").
#[tactic(auto, unfolding(crate::specs::Rules::vector_rules))]
fn vector_name(rule: u16) -> Option<&'static str>
    ensures { option_copied result ≡ name_in vector_rules rule }
{
    match rule {
        TVX_FORMAT => Some("TvxFormat"),
        TVX_PLACE => Some("TvxPlace"),
        TVD_FORMAT => Some("TvdFormat"),
        TVD_PLACE => Some("TvdPlace"),
        VECTOR_FIELD => Some("VectorField"),
        VECTOR_TWICE => Some("VectorTwice"),
        TVF_SUM => Some("TvfSum"),
        TVF_FORMAT => Some("TvfFormat"),
        TVF_PLACE => Some("TvfPlace"),
        VECTOR_BITS => Some("VectorBits"),
        VECTOR_PREFIX => Some("VectorPrefix"),
        VECTOR_UTF8 => Some("VectorUtf8"),
        VECTOR_ORDER => Some("VectorOrder"),
        VECTOR_FREQ => Some("VectorFreq"),
        VECTOR_POSITION => Some("VectorPosition"),
        VECTOR_OFFSET => Some("VectorOffset"),
        _ => None,
    }
}

/// The rule that a record breaks whose part does not stand in the bytes.
pub fn rule_of(bad: Bad) -> u16
    ensures { result ≡ rule_of bad }
{
    match bad {
        Bad::Ends => ENDS,
        Bad::LongNumber => LONG_NUMBER,
        Bad::TooGreat => TOO_GREAT,
        Bad::NotUtf8 => NOT_UTF8,
    }
}
