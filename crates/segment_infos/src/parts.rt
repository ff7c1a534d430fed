//! Records of `segments_N` read part by part.
ghost use Rattle.std.specs.Prelude.{◌≡◌, ℕ, ◌^◌, ◌<◌, IfOk};
ghost use Rattle.lu_grammar.specs.Parts.{text};
ghost use Rattle.lu_grammar.specs.Reading.{read_part};
ghost use Rattle.lu_grammar.specs.Records.{read_shape};
ghost use Rattle.segment_infos.specs.Records.{many, heading_shape, store_shape, store_if, front_shape, gen_shape, norm_shape, flag_shape, pair_shape, map_shape, line_shape};
ghost use Rattle.lu_grammar.specs.Answers.{Gives};
ghost use Rattle.segment_infos.specs.Answers.{GivesOr};

use crate::infos::MapPair;
use crate::lists::{MapPairs, NormGens};
use crate::numbers::{count_or_zero, is_none_number};
use crate::record::{
    FlagPart, FrontPart, Heading, Lent, MapPart, NormPart, SegmentLine, SharedStorePart,
};
use crate::stop::Stop;
use lu_prims::{Bad, Cur};
use lu_types::Text;
use std::alloc::Global;

/// The header.
pub fn heading_parts(cur: &mut Cur<'_>) -> Result<Heading, Bad>
    ensures { Gives (λ x. x) (read_shape heading_shape cur.old) cur.new result }
{
    let format = cur.i32()?;
    let version = cur.i64()?;
    let counter = cur.i32()?;
    let count = cur.i32()?;
    Ok(Heading {
        format,
        version,
        counter,
        count,
    })
}

/// The shared store of a segment.
fn store_parts<'a>(cur: &mut Cur<'a>) -> Result<SharedStorePart<'a>, Bad>
    ensures { Gives (λ x. x) (read_shape store_shape cur.old) cur.new result }
{
    let name = cur.text()?;
    let flag = cur.u8()?;
    Ok(SharedStorePart {
        name: Lent::new(name),
        flag,
    })
}

/// The shared store where it is there.
fn store_if<'a>(cur: &mut Cur<'a>, there: bool) -> Result<Option<SharedStorePart<'a>>, Bad>
    ensures { Gives (λ x. x) (read_shape (store_if there) cur.old) cur.new result }
{
    if there {
        let store = store_parts(cur)?;
        Ok(Some(store))
    } else {
        Ok(None)
    }
}

/// The first parts of a segment.
fn front_parts<'a>(cur: &mut Cur<'a>) -> Result<FrontPart<'a>, Bad>
    ensures { Gives (λ x. x) (read_shape front_shape cur.old) cur.new result }
{
    let name = cur.text()?;
    let size = cur.i32()?;
    let del_gen = cur.i64()?;
    let offset = cur.i32()?;
    let store = store_if(cur, !is_none_number(offset))?;
    Ok(FrontPart {
        name: Lent::new(name),
        size,
        del_gen,
        offset,
        store,
    })
}

/// So many norm generations.
fn gens(alloc: Global, cur: &mut Cur<'_>, count: u32) -> Result<NormGens, Stop<Bad>>
    ensures { GivesOr (λ x. x) (read_shape (many gen_shape count) cur.old) cur.new result }
{
    let mut gens = Vec::new(alloc);
    for _ in 0..count {
        match cur.i64() {
            Err(bad) => return Err(Stop::Wrong(bad)),
            Ok(generation) => gens.push(generation)?,
        }
    }
    Ok(NormGens::new(gens))
}

/// What is said of the norms of a segment.
fn norm_parts(alloc: Global, cur: &mut Cur<'_>) -> Result<NormPart, Stop<Bad>>
    ensures { GivesOr (λ x. x) (read_shape norm_shape cur.old) cur.new result }
{
    let single = cur.u8()?;
    let count = cur.i32()?;
    let gens = match gens(alloc, cur, count_or_zero(count)) {
        Err(stop) => return Err(stop),
        Ok(gens) => gens,
    };
    Ok(NormPart {
        single,
        count,
        gens,
    })
}

/// The flags of a segment.
fn flag_parts(cur: &mut Cur<'_>) -> Result<FlagPart, Bad>
    ensures { Gives (λ x. x) (read_shape flag_shape cur.old) cur.new result }
{
    let compound = cur.u8()?;
    let deleted = cur.i32()?;
    let prox = cur.u8()?;
    Ok(FlagPart {
        compound,
        deleted,
        prox,
    })
}

/// A text of its own.
fn owned_text(alloc: Global, cur: &mut Cur<'_>) -> Result<Text, Stop<Bad>>
    ensures { GivesOr (λ x. x) (read_part text cur.old) cur.new result }
{
    let found = cur.text()?;
    let string = String::from_str(alloc, found)?;
    Ok(Text::new(string))
}

/// A key and its value.
fn pair_parts(alloc: Global, cur: &mut Cur<'_>) -> Result<MapPair, Stop<Bad>>
    ensures { GivesOr (λ x. x) (read_shape pair_shape cur.old) cur.new result }
{
    let key = owned_text(alloc, cur)?;
    let value = owned_text(alloc, cur)?;
    Ok(MapPair { key, value })
}

/// So many pairs.
fn pairs(alloc: Global, cur: &mut Cur<'_>, count: u32) -> Result<MapPairs, Stop<Bad>>
    ensures { GivesOr (λ x. x) (read_shape (many pair_shape count) cur.old) cur.new result }
{
    let mut pairs = Vec::new(alloc);
    for _ in 0..count {
        match pair_parts(alloc, cur) {
            Err(stop) => return Err(stop),
            Ok(pair) => pairs.push(pair)?,
        }
    }
    Ok(MapPairs::new(pairs))
}

/// A Map.
pub fn map_parts(alloc: Global, cur: &mut Cur<'_>) -> Result<MapPart, Stop<Bad>>
    ensures { GivesOr (λ x. x) (read_shape map_shape cur.old) cur.new result }
{
    let count = cur.i32()?;
    match pairs(alloc, cur, count_or_zero(count)) {
        Err(stop) => Err(stop),
        Ok(pairs) => Ok(MapPart { count, pairs }),
    }
}

/// A segment.
pub fn line_parts<'a>(alloc: Global, cur: &mut Cur<'a>) -> Result<SegmentLine<'a>, Stop<Bad>>
    ensures { GivesOr (λ x. x) (read_shape line_shape cur.old) cur.new result }
{
    let front = match front_parts(cur) {
        Err(bad) => return Err(Stop::Wrong(bad)),
        Ok(front) => front,
    };
    let norms = match norm_parts(alloc, cur) {
        Err(stop) => return Err(stop),
        Ok(norms) => norms,
    };
    let flags = match flag_parts(cur) {
        Err(bad) => return Err(Stop::Wrong(bad)),
        Ok(flags) => flags,
    };
    let map = match map_parts(alloc, cur) {
        Err(stop) => return Err(stop),
        Ok(map) => map,
    };
    Ok(SegmentLine {
        front,
        norms,
        flags,
        map,
    })
}
