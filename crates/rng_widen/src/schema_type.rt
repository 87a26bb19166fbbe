//! The types of XML Schema's library (XML Schema Part 2, sections 3.2 and 3.3), and those among them by which others are checked.

ghost use Rattle.std.specs.Prelude.{◌≡◌};
ghost use Rattle.std.specs.List.{find};
ghost use Rattle.std.specs.Option.{option_copied};
ghost use Rattle.std.specs.Str.{bytes_eq};
ghost use Rattle.rng_widen.specs.Types.{type_text, wider_type, sort_of};
ghost use Rattle.rng_widen.specs.Naming.{type_named};

/// A type of XML Schema's library.
#[derive(Clone, Copy, Debug, PartialEq, Eq)]
pub enum SchemaType {
    String,
    NormalizedString,
    Token,
    AnyUri,
    Name,
    NcName,
    NmToken,
    NmTokens,
    Id,
    IdRef,
    IdRefs,
    Entity,
    Entities,
    HexBinary,
    Base64Binary,
    Language,
    QName,
    Notation,
    Boolean,
    Decimal,
    Integer,
    NonPositiveInteger,
    NegativeInteger,
    NonNegativeInteger,
    PositiveInteger,
    Long,
    Int,
    Short,
    Byte,
    UnsignedLong,
    UnsignedInt,
    UnsignedShort,
    UnsignedByte,
    Date,
    Time,
    DateTime,
    GYear,
    GYearMonth,
    GMonth,
    GDay,
    GMonthDay,
    Duration,
    Float,
    Double,
}

/// Types that have the same facets.
#[derive(Clone, Copy, Debug, PartialEq, Eq)]
pub enum Sort {
    /// Texts with a length.
    Texts,
    /// Texts with a length, which is held of none of them.
    Words,
    /// Truth values.
    Truths,
    /// Numbers with a literal of decimal digits.
    Numbers,
    /// Dates, times, and numbers of other literals: they have bounds, which are held of none of them.
    Moments,
}

const TYPES: [SchemaType; 44] = [
    SchemaType::String,
    SchemaType::NormalizedString,
    SchemaType::Token,
    SchemaType::AnyUri,
    SchemaType::Name,
    SchemaType::NcName,
    SchemaType::NmToken,
    SchemaType::NmTokens,
    SchemaType::Id,
    SchemaType::IdRef,
    SchemaType::IdRefs,
    SchemaType::Entity,
    SchemaType::Entities,
    SchemaType::HexBinary,
    SchemaType::Base64Binary,
    SchemaType::Language,
    SchemaType::QName,
    SchemaType::Notation,
    SchemaType::Boolean,
    SchemaType::Decimal,
    SchemaType::Integer,
    SchemaType::NonPositiveInteger,
    SchemaType::NegativeInteger,
    SchemaType::NonNegativeInteger,
    SchemaType::PositiveInteger,
    SchemaType::Long,
    SchemaType::Int,
    SchemaType::Short,
    SchemaType::Byte,
    SchemaType::UnsignedLong,
    SchemaType::UnsignedInt,
    SchemaType::UnsignedShort,
    SchemaType::UnsignedByte,
    SchemaType::Date,
    SchemaType::Time,
    SchemaType::DateTime,
    SchemaType::GYear,
    SchemaType::GYearMonth,
    SchemaType::GMonth,
    SchemaType::GDay,
    SchemaType::GMonthDay,
    SchemaType::Duration,
    SchemaType::Float,
    SchemaType::Double,
];

/// How a type is named.
pub fn type_text(named: SchemaType) -> &'static [u8]
    ensures { result.now ≡ type_text named }
{
    match named {
        SchemaType::String => b"string",
        SchemaType::NormalizedString => b"normalizedString",
        SchemaType::Token => b"token",
        SchemaType::AnyUri => b"anyURI",
        SchemaType::Name => b"Name",
        SchemaType::NcName => b"NCName",
        SchemaType::NmToken => b"NMTOKEN",
        SchemaType::NmTokens => b"NMTOKENS",
        SchemaType::Id => b"ID",
        SchemaType::IdRef => b"IDREF",
        SchemaType::IdRefs => b"IDREFS",
        SchemaType::Entity => b"ENTITY",
        SchemaType::Entities => b"ENTITIES",
        SchemaType::HexBinary => b"hexBinary",
        SchemaType::Base64Binary => b"base64Binary",
        SchemaType::Language => b"language",
        SchemaType::QName => b"QName",
        SchemaType::Notation => b"NOTATION",
        SchemaType::Boolean => b"boolean",
        SchemaType::Decimal => b"decimal",
        SchemaType::Integer => b"integer",
        SchemaType::NonPositiveInteger => b"nonPositiveInteger",
        SchemaType::NegativeInteger => b"negativeInteger",
        SchemaType::NonNegativeInteger => b"nonNegativeInteger",
        SchemaType::PositiveInteger => b"positiveInteger",
        SchemaType::Long => b"long",
        SchemaType::Int => b"int",
        SchemaType::Short => b"short",
        SchemaType::Byte => b"byte",
        SchemaType::UnsignedLong => b"unsignedLong",
        SchemaType::UnsignedInt => b"unsignedInt",
        SchemaType::UnsignedShort => b"unsignedShort",
        SchemaType::UnsignedByte => b"unsignedByte",
        SchemaType::Date => b"date",
        SchemaType::Time => b"time",
        SchemaType::DateTime => b"dateTime",
        SchemaType::GYear => b"gYear",
        SchemaType::GYearMonth => b"gYearMonth",
        SchemaType::GMonth => b"gMonth",
        SchemaType::GDay => b"gDay",
        SchemaType::GMonthDay => b"gMonthDay",
        SchemaType::Duration => b"duration",
        SchemaType::Float => b"float",
        SchemaType::Double => b"double",
    }
}

/// The type by which this one is checked: one that is held and has all texts of this one. None where this one is held.
pub fn wider_type(named: SchemaType) -> Option<SchemaType>
    ensures { result ≡ wider_type named }
{
    match named {
        SchemaType::Entity => Some(SchemaType::NcName),
        SchemaType::Entities => Some(SchemaType::IdRefs),
        SchemaType::QName => Some(SchemaType::Token),
        SchemaType::Notation => Some(SchemaType::Token),
        SchemaType::GMonth => Some(SchemaType::Token),
        SchemaType::GDay => Some(SchemaType::Token),
        SchemaType::GMonthDay => Some(SchemaType::Token),
        SchemaType::Duration => Some(SchemaType::Token),
        SchemaType::Float => Some(SchemaType::Token),
        SchemaType::Double => Some(SchemaType::Token),
        _ => None,
    }
}

/// The facets that a type has.
pub fn sort_of(named: SchemaType) -> Sort
    ensures { result ≡ sort_of named }
{
    match named {
        SchemaType::String => Sort::Texts,
        SchemaType::NormalizedString => Sort::Texts,
        SchemaType::Token => Sort::Texts,
        SchemaType::AnyUri => Sort::Texts,
        SchemaType::Name => Sort::Texts,
        SchemaType::NcName => Sort::Texts,
        SchemaType::NmToken => Sort::Texts,
        SchemaType::NmTokens => Sort::Texts,
        SchemaType::Id => Sort::Texts,
        SchemaType::IdRef => Sort::Texts,
        SchemaType::IdRefs => Sort::Texts,
        SchemaType::Entity => Sort::Texts,
        SchemaType::Entities => Sort::Texts,
        SchemaType::HexBinary => Sort::Texts,
        SchemaType::Base64Binary => Sort::Texts,
        SchemaType::Language => Sort::Words,
        SchemaType::QName => Sort::Words,
        SchemaType::Notation => Sort::Words,
        SchemaType::Boolean => Sort::Truths,
        SchemaType::Decimal => Sort::Numbers,
        SchemaType::Integer => Sort::Numbers,
        SchemaType::NonPositiveInteger => Sort::Numbers,
        SchemaType::NegativeInteger => Sort::Numbers,
        SchemaType::NonNegativeInteger => Sort::Numbers,
        SchemaType::PositiveInteger => Sort::Numbers,
        SchemaType::Long => Sort::Numbers,
        SchemaType::Int => Sort::Numbers,
        SchemaType::Short => Sort::Numbers,
        SchemaType::Byte => Sort::Numbers,
        SchemaType::UnsignedLong => Sort::Numbers,
        SchemaType::UnsignedInt => Sort::Numbers,
        SchemaType::UnsignedShort => Sort::Numbers,
        SchemaType::UnsignedByte => Sort::Numbers,
        SchemaType::Date => Sort::Moments,
        SchemaType::Time => Sort::Moments,
        SchemaType::DateTime => Sort::Moments,
        SchemaType::GYear => Sort::Moments,
        SchemaType::GYearMonth => Sort::Moments,
        SchemaType::GMonth => Sort::Moments,
        SchemaType::GDay => Sort::Moments,
        SchemaType::GMonthDay => Sort::Moments,
        SchemaType::Duration => Sort::Moments,
        SchemaType::Float => Sort::Moments,
        SchemaType::Double => Sort::Moments,
    }
}

/// The first of the types with this name.
fn first_type<'a>(types: &'a [SchemaType], local: &[u8]) -> Option<&'a SchemaType>
    ensures { option_copied result ≡ find (λ named. bytes_eq (type_text named) local.now) types.now }
{
    types.iter().find(|named| type_text(**named) == local)
}

/// The type of this name.
#[tactic(auto, unfolding(crate::specs::Naming::type_named))]
pub(crate) fn type_named(local: &[u8]) -> Option<SchemaType>
    ensures { result ≡ type_named local.now }
{
    first_type(&TYPES, local).copied()
}
