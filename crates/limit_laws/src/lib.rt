//! The numbers of the limits. Definitions cite the constants of the code, and here each has its value: the contract of a function that does nothing.
#![tactic(auto)]

ghost use Rattle.std.specs.Prelude.{◌≡◌, ◌-◌, ◌^◌};
ghost use Rattle.nd_base.specs.declared.TheConstants.{FILE_LIMIT, STREAM_LIMIT, PIECE};
ghost use Rattle.nd_types.specs.declared.TheConstants.{HANDLE, BASIC_TYPES, NESTING_LIMIT, ENUMERATOR_LIMIT, ELEMENT_LIMIT};
ghost use Rattle.nd_types.specs.declared.TheConstants.{TYPE_LIMIT, OPERATION_LIMIT, PARAM_LIMIT, MEMBER_LIMIT};
ghost use Rattle.ndr_code.specs.declared.TheConstants.{ADDRESS_LIMIT};
ghost use Rattle.text_grammar.specs.declared.TheConstants.{TEXT_LIMIT};
ghost use Rattle.command_line.specs.declared.TheConstants.{CHUNK_LIMIT, COUNT_LIMIT, LEAST_MAX};
ghost use Rattle.library_nodes.specs.declared.TheConstants.{LISTING_LIMIT};

/// The limits of an interface: how many types are on a path down from a type, the greatest enumerator, the elements of fixed dimensions, the types,
/// operations, parameters of an operation, members and arms. The basic types come first, and the number of handle_t is that of no type.
pub fn interface_limits()
    ensures nesting { NESTING_LIMIT ≡ 32 }
    ensures enumerator { ENUMERATOR_LIMIT ≡ 32767 }
    ensures elements { ELEMENT_LIMIT ≡ 16777216 }
    ensures types { TYPE_LIMIT ≡ 4096 }
    ensures operations { OPERATION_LIMIT ≡ 1024 }
    ensures parameters { PARAM_LIMIT ≡ 256 }
    ensures members { MEMBER_LIMIT ≡ 67108864 }
    ensures basic { BASIC_TYPES ≡ 12 }
    ensures handle { HANDLE.0 ≡ 2 ^ 32 - 1 }
    ensures addresses { ADDRESS_LIMIT ≡ 2 ^ 32 - 1 }
{}

/// The limits of files, streams and texts and of what is fetched at once, in octets, and of the nodes, the numbers and the cells of a listing.
pub fn length_limits()
    ensures file { FILE_LIMIT ≡ 1048576 }
    ensures stream { STREAM_LIMIT ≡ 67108864 }
    ensures text { TEXT_LIMIT ≡ 536870912 }
    ensures listing { LISTING_LIMIT ≡ 1073741824 }
    ensures piece { PIECE ≡ 4096 }
{}

/// The limits of what a command line may ask for: the elements of a chunk, the cells of a sample, and the least length of a whole fragment.
pub fn word_limits()
    ensures chunk { CHUNK_LIMIT ≡ 16777216 }
    ensures cells { COUNT_LIMIT ≡ 1000000 }
    ensures fragment { LEAST_MAX ≡ 1024 }
{}
