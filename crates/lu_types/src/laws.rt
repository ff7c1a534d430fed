//! The numbers that the format fixes, as the definitions have them and as the code does: each stands on a function that does nothing.
ghost use Rattle.std.specs.Prelude.{◌≡◌};
ghost use Rattle.lu_types.specs.RuleNumbers as number;
ghost use Rattle.lu_types.specs.Bits as bit;
ghost use Rattle.lu_types.specs.Kinds.{front_kinds, vector_kinds, part_kinds};
ghost use Rattle.lu_types.specs.Names.{greatest_segment};

use crate::bits::INDEXED;
use crate::bits::OMIT_NORMS;
use crate::bits::OMIT_TF;
use crate::bits::PAYLOADS;
use crate::bits::VECTOR_OFFSETS;
use crate::bits::VECTOR_POSITIONS;
use crate::bits::VECTORS;
use crate::kinds::FRONT_KINDS;
use crate::kinds::PART_KINDS;
use crate::kinds::VECTOR_KINDS;
use crate::names::GREATEST_SEGMENT;
use crate::rules::CFS_FIRST;
use crate::rules::CFS_OFFSET;
use crate::rules::CFS_TWICE;
use crate::rules::CHECKSUM;
use crate::rules::COMPOUND_FLAG;
use crate::rules::DEL_BYTE;
use crate::rules::DEL_COUNT;
use crate::rules::DEL_GAP;
use crate::rules::DEL_GEN;
use crate::rules::DEL_PAST;
use crate::rules::DEL_SIZE;
use crate::rules::DEL_TOTAL;
use crate::rules::DELETION_COUNT;
use crate::rules::DOC_FREQ;
use crate::rules::DOC_ORDER;
use crate::rules::DOC_RANGE;
use crate::rules::ENDS;
use crate::rules::FDT_FORMAT;
use crate::rules::FDT_PLACE;
use crate::rules::FDX_FORMAT;
use crate::rules::FDX_PLACE;
use crate::rules::FIELD_BITS;
use crate::rules::FIELD_TWICE;
use crate::rules::FNM_FORMAT;
use crate::rules::FORMAT;
use crate::rules::FREQ;
use crate::rules::FREQ_START;
use crate::rules::INDEX_INTERVAL;
use crate::rules::LONG_NUMBER;
use crate::rules::MAP_COUNT;
use crate::rules::MISSING;
use crate::rules::NAME_COUNTER;
use crate::rules::NORM_COUNT;
use crate::rules::NORM_HEADER;
use crate::rules::NOT_UTF8;
use crate::rules::NUM_FIELD;
use crate::rules::OLD_NORMS;
use crate::rules::POSITION;
use crate::rules::PROX_FIELD;
use crate::rules::PROX_FLAG;
use crate::rules::PROX_START;
use crate::rules::SEG_COUNT;
use crate::rules::SEG_NAME;
use crate::rules::SEG_SIZE;
use crate::rules::SEG_TWICE;
use crate::rules::SEPARATE_NORMS;
use crate::rules::SHARED_STORE;
use crate::rules::SIZE_SUM;
use crate::rules::SKIP_CHILD;
use crate::rules::SKIP_DOC;
use crate::rules::SKIP_FREQ;
use crate::rules::SKIP_INTERVAL;
use crate::rules::SKIP_LENGTH;
use crate::rules::SKIP_LEVELS;
use crate::rules::SKIP_OMIT;
use crate::rules::SKIP_PAYLOAD;
use crate::rules::SKIP_PROX;
use crate::rules::SKIP_START;
use crate::rules::STORE_FLAG;
use crate::rules::STORE_NAME;
use crate::rules::STORE_RANGE;
use crate::rules::STORED_BITS;
use crate::rules::STORED_FIELD;
use crate::rules::TERM_COUNT;
use crate::rules::TERM_FIELD;
use crate::rules::TERM_ORDER;
use crate::rules::TERM_PLACE;
use crate::rules::TERM_PREFIX;
use crate::rules::TERM_UTF8;
use crate::rules::TII_COUNT;
use crate::rules::TII_FORMAT;
use crate::rules::TII_INTERVALS;
use crate::rules::TII_PLACE;
use crate::rules::TII_PREFIX;
use crate::rules::TII_TERM;
use crate::rules::TIS_FORMAT;
use crate::rules::TOO_GREAT;
use crate::rules::TRAILING;
use crate::rules::TVD_FORMAT;
use crate::rules::TVD_PLACE;
use crate::rules::TVF_FORMAT;
use crate::rules::TVF_PLACE;
use crate::rules::TVF_SUM;
use crate::rules::TVX_FORMAT;
use crate::rules::TVX_PLACE;
use crate::rules::VECTOR_BITS;
use crate::rules::VECTOR_FIELD;
use crate::rules::VECTOR_FREQ;
use crate::rules::VECTOR_OFFSET;
use crate::rules::VECTOR_ORDER;
use crate::rules::VECTOR_POSITION;
use crate::rules::VECTOR_PREFIX;
use crate::rules::VECTOR_TWICE;
use crate::rules::VECTOR_UTF8;
use crate::rules::VERSION;

/// The rules have the numbers that the definitions have.
pub fn rules_are_numbered()
    ensures general { (ENDS ≡ number.ends) × (LONG_NUMBER ≡ number.long_number) × (TOO_GREAT ≡ number.too_great) × (NOT_UTF8 ≡ number.not_utf8) × (MISSING ≡ number.missing) × (TRAILING ≡ number.trailing) }
    ensures commit { (FORMAT ≡ number.format) × (VERSION ≡ number.version) × (NAME_COUNTER ≡ number.name_counter) × (SEG_COUNT ≡ number.seg_count) × (SEG_NAME ≡ number.seg_name) × (SEG_TWICE ≡ number.seg_twice) × (SEG_SIZE ≡ number.seg_size) × (SIZE_SUM ≡ number.size_sum) × (DEL_GEN ≡ number.del_gen) × (SHARED_STORE ≡ number.shared_store) × (OLD_NORMS ≡ number.old_norms) × (NUM_FIELD ≡ number.num_field) × (SEPARATE_NORMS ≡ number.separate_norms) × (COMPOUND_FLAG ≡ number.compound_flag) × (DELETION_COUNT ≡ number.deletion_count) × (PROX_FLAG ≡ number.prox_flag) × (MAP_COUNT ≡ number.map_count) × (CHECKSUM ≡ number.checksum) × (STORE_NAME ≡ number.store_name) × (STORE_FLAG ≡ number.store_flag) }
    ensures compound { (CFS_OFFSET ≡ number.cfs_offset) × (CFS_TWICE ≡ number.cfs_twice) × (CFS_FIRST ≡ number.cfs_first) }
    ensures field_table { (FNM_FORMAT ≡ number.fnm_format) × (FIELD_TWICE ≡ number.field_twice) × (FIELD_BITS ≡ number.field_bits) × (PROX_FIELD ≡ number.prox_field) × (NORM_COUNT ≡ number.norm_count) }
    ensures stored { (FDX_FORMAT ≡ number.fdx_format) × (FDX_PLACE ≡ number.fdx_place) × (STORE_RANGE ≡ number.store_range) × (FDT_FORMAT ≡ number.fdt_format) × (FDT_PLACE ≡ number.fdt_place) × (STORED_FIELD ≡ number.stored_field) × (STORED_BITS ≡ number.stored_bits) }
    ensures term { (TIS_FORMAT ≡ number.tis_format) × (TERM_COUNT ≡ number.term_count) × (INDEX_INTERVAL ≡ number.index_interval) × (SKIP_INTERVAL ≡ number.skip_interval) × (SKIP_LEVELS ≡ number.skip_levels) × (TERM_PREFIX ≡ number.term_prefix) × (TERM_UTF8 ≡ number.term_utf8) × (TERM_FIELD ≡ number.term_field) × (TERM_ORDER ≡ number.term_order) × (DOC_FREQ ≡ number.doc_freq) × (TERM_PLACE ≡ number.term_place) × (TII_FORMAT ≡ number.tii_format) × (TII_COUNT ≡ number.tii_count) × (TII_INTERVALS ≡ number.tii_intervals) × (TII_PREFIX ≡ number.tii_prefix) × (TII_TERM ≡ number.tii_term) × (TII_PLACE ≡ number.tii_place) }
    ensures entry { (FREQ_START ≡ number.freq_start) × (DOC_ORDER ≡ number.doc_order) × (DOC_RANGE ≡ number.doc_range) × (FREQ ≡ number.freq) × (SKIP_START ≡ number.skip_start) × (SKIP_DOC ≡ number.skip_doc) × (SKIP_FREQ ≡ number.skip_freq) × (SKIP_OMIT ≡ number.skip_omit) × (SKIP_CHILD ≡ number.skip_child) × (SKIP_LENGTH ≡ number.skip_length) × (PROX_START ≡ number.prox_start) × (POSITION ≡ number.position) × (SKIP_PROX ≡ number.skip_prox) × (SKIP_PAYLOAD ≡ number.skip_payload) }
    ensures mark { (NORM_HEADER ≡ number.norm_header) × (DEL_SIZE ≡ number.del_size) × (DEL_COUNT ≡ number.del_count) × (DEL_GAP ≡ number.del_gap) × (DEL_BYTE ≡ number.del_byte) × (DEL_PAST ≡ number.del_past) × (DEL_TOTAL ≡ number.del_total) }
    ensures vector { (TVX_FORMAT ≡ number.tvx_format) × (TVX_PLACE ≡ number.tvx_place) × (TVD_FORMAT ≡ number.tvd_format) × (TVD_PLACE ≡ number.tvd_place) × (VECTOR_FIELD ≡ number.vector_field) × (VECTOR_TWICE ≡ number.vector_twice) × (TVF_SUM ≡ number.tvf_sum) × (TVF_FORMAT ≡ number.tvf_format) × (TVF_PLACE ≡ number.tvf_place) × (VECTOR_BITS ≡ number.vector_bits) × (VECTOR_PREFIX ≡ number.vector_prefix) × (VECTOR_UTF8 ≡ number.vector_utf8) × (VECTOR_ORDER ≡ number.vector_order) × (VECTOR_FREQ ≡ number.vector_freq) × (VECTOR_POSITION ≡ number.vector_position) × (VECTOR_OFFSET ≡ number.vector_offset) }
{}

/// The bits of a field are those that the definitions have.
pub fn bits_are_numbered()
    ensures { (INDEXED ≡ bit.indexed) × (VECTORS ≡ bit.vectors) × (VECTOR_POSITIONS ≡ bit.vector_positions) × (VECTOR_OFFSETS ≡ bit.vector_offsets) × (OMIT_NORMS ≡ bit.omit_norms) × (PAYLOADS ≡ bit.payloads) × (OMIT_TF ≡ bit.omit_tf) }
{}

/// The greatest number of a segment is the one that the definitions have.
pub fn names_are_bounded()
    ensures { GREATEST_SEGMENT ≡ greatest_segment }
{}

/// The kinds of files that are parts are those that the definitions list.
pub fn kinds_are_listed()
    ensures { (FRONT_KINDS ≡ front_kinds) × (VECTOR_KINDS ≡ vector_kinds) × (PART_KINDS ≡ part_kinds) }
{}
