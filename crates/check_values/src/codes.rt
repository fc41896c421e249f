ghost use Rattle.std.specs.Prelude.{◌≡◌};
ghost use Rattle.check_values.specs.Codes.{code_name};

/// What a fault is.
#[derive(Clone, Copy, Debug, PartialEq, Eq)]
pub enum Code {
    /// No token begins here.
    BadToken,
    /// A property that is only written is read.
    CannotRead,
    /// A specifier finds no module.
    CannotResolveModule,
    /// A name is bound nowhere.
    CannotResolveName,
    /// A property or an element that is only read is written.
    CannotWrite,
    /// A call has too few arguments, or too many.
    IncompatibleArity,
    /// A value is not of the type that is asked.
    IncompatibleType,
    /// A value that may be null, void or anything is used as an object or a function.
    IncompatibleUse,
    /// Two values of kinds that have no order are compared.
    InvalidCompare,
    /// A value has no element of this index.
    InvalidIndex,
    /// A module has no export of this name.
    MissingExport,
    /// A parameter has no annotation.
    MissingLocalAnnot,
    /// A name is bound, exported, or a key given, a second time.
    NameAlreadyBound,
    /// What is called is no function.
    NotAFunction,
    /// The source is not UTF-8.
    NotUtf8,
    /// The tokens are no module.
    Parse,
    /// An object has no such property.
    PropMissing,
    /// A constant is assigned.
    ReassignConst,
    /// An alias leads back to itself with no constructor between.
    RecursiveAlias,
    /// A chain of re-exports leads back to itself.
    RecursiveDefinition,
    /// A variable is used before its declaration ends.
    ReferenceBeforeDeclaration,
    /// An export has no annotation that tells its type.
    SignatureVerificationFailure,
    /// The source is longer than the limit.
    SourceTooLong,
    /// A type is used as a value.
    TypeAsValue,
    /// A statement is never reached.
    UnreachableCode,
    /// An operand is of a type that has no arithmetic.
    UnsafeArithmetic,
    /// A value is used as a type.
    ValueAsType,
}

impl Code {
    /// The name that is printed, as `incompatible-type`.
    pub fn name(self) -> &'static str
        ensures { result.now ≡ code_name self }
    {
        match self {
            Code::BadToken => "bad-token",
            Code::CannotRead => "cannot-read",
            Code::CannotResolveModule => "cannot-resolve-module",
            Code::CannotResolveName => "cannot-resolve-name",
            Code::CannotWrite => "cannot-write",
            Code::IncompatibleArity => "incompatible-arity",
            Code::IncompatibleType => "incompatible-type",
            Code::IncompatibleUse => "incompatible-use",
            Code::InvalidCompare => "invalid-compare",
            Code::InvalidIndex => "invalid-index",
            Code::MissingExport => "missing-export",
            Code::MissingLocalAnnot => "missing-local-annot",
            Code::NameAlreadyBound => "name-already-bound",
            Code::NotAFunction => "not-a-function",
            Code::NotUtf8 => "not-utf8",
            Code::Parse => "parse",
            Code::PropMissing => "prop-missing",
            Code::ReassignConst => "reassign-const",
            Code::RecursiveAlias => "recursive-alias",
            Code::RecursiveDefinition => "recursive-definition",
            Code::ReferenceBeforeDeclaration => "reference-before-declaration",
            Code::SignatureVerificationFailure => "signature-verification-failure",
            Code::SourceTooLong => "source-too-long",
            Code::TypeAsValue => "type-as-value",
            Code::UnreachableCode => "unreachable-code",
            Code::UnsafeArithmetic => "unsafe-arithmetic",
            Code::ValueAsType => "value-as-type",
        }
    }
}
