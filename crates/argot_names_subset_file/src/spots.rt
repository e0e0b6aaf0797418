// Features and their places as they are gathered.
ghost use Rattle.std.specs.Prelude.{◌≡◌, OnOk};
ghost use Rattle.argot_names_rules.specs.declared.flag.Feature.{Feature};
ghost use Rattle.argot_names_rules.specs.Subset.{rank};
ghost use Rattle.argot_names_subset_file.specs.Spots.{spot_of, Adds};

use argot_names_rules::Feature;
use argot_text::Memory;
use std::collections::BTreeSet;

/// A feature at a byte of a file, by its number in the order of features; ordered by file, by offset, and then by that number.
#[derive(Clone, Copy, Debug, PartialEq, Eq, PartialOrd, Ord)]
pub struct Spot {
    pub file: u32,
    pub offset: u32,
    pub rank: u8,
}

/// The number of a feature in the order of features.
pub fn rank_of(feature: Feature) -> u8
    ensures { result ≡ rank feature }
{
    match feature {
        Feature::ImportUnsafe => 0,
        Feature::ImportReflect => 1,
        Feature::ImportC => 2,
        Feature::DotImport => 3,
        Feature::AssemblyFile => 4,
        Feature::Linkname => 5,
        Feature::BuildLine => 6,
        Feature::Embed => 7,
        Feature::TypeParameters => 8,
        Feature::FloatingPointLiteral => 9,
        Feature::ImaginaryLiteral => 10,
        Feature::FloatingPointType => 11,
        Feature::ComplexType => 12,
        Feature::ComplexBuiltIn => 13,
        Feature::Uintptr => 14,
        Feature::Comparable => 15,
        Feature::Recover => 16,
        Feature::Goto => 17,
        Feature::MethodExpression => 18,
        Feature::FunctionWithoutBody => 19,
        Feature::GoLine => 20,
    }
}

/// Adds a feature at a byte of a file. After `Memory` the spots are what they were.
pub fn note(
    spots: &mut BTreeSet<Spot>,
    feature: Feature,
    file: u32,
    offset: u32,
) -> Result<(), Memory>
    ensures { OnOk result (Adds (λ f p. (f ≡ feature) × (p ≡ record { file = file; offset = offset })) spots.old.keys spots.new.keys) }
{
    spots.insert(Spot {
        file,
        offset,
        rank: rank_of(feature),
    })?;
    Ok(())
}
