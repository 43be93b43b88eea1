//! The rules by their names: each name is the number that is printed.

/// An attribute stands only where it may.
pub const ATTRIBUTES_IN_PLACE: u8 = 1;
/// No attribute word stands twice in one list.
pub const NO_WORD_TWICE: u8 = 2;
/// The header of the main file has `uuid` or `local`.
pub const UUID_OR_LOCAL: u8 = 3;
/// Both numbers of a version are at most 65,535.
pub const VERSION_NUMBERS: u8 = 4;
/// A declaration that ends after its type is a struct, union or enum with its body.
pub const BODY: u8 = 5;
/// Where `void` may stand.
pub const VOID: u8 = 6;
/// Where `handle_t` may stand.
pub const HANDLE: u8 = 7;
/// Where pipes may stand.
pub const PIPES: u8 = 8;
/// What has `context_handle` is a context handle.
pub const CONTEXT_HANDLE: u8 = 9;
/// Where context handles may stand.
pub const CONTEXT_HANDLES: u8 = 10;
/// No struct or union contains itself in place.
pub const NO_TYPE_IN_ITSELF: u8 = 11;
/// At most 32 types stand on a path through members, arms and elements.
pub const NESTING: u8 = 12;
/// The values of enumerators are 0 to 32,767.
pub const ENUMERATORS: u8 = 13;
/// A fixed array has 1 to 16,777,216 elements.
pub const ELEMENTS: u8 = 14;
/// A lower bound is 0.
pub const LOWER_BOUNDS: u8 = 15;
/// An array of more than one dimension is fixed in each.
pub const SEVERAL_DIMENSIONS: u8 = 16;
/// What an element of an array may be.
pub const ELEMENTS_OF_ARRAYS: u8 = 17;
/// A member that hoists is the last of its struct.
pub const MEMBERS_THAT_HOIST: u8 = 18;
/// No arm hoists.
pub const ARMS_THAT_HOIST: u8 = 19;
/// What an element of a pipe may hold.
pub const ELEMENTS_OF_PIPES: u8 = 20;
/// What a switch type may be.
pub const SWITCH_TYPES: u8 = 21;
/// Labels are values of the switch type, each at most once.
pub const LABELS: u8 = 22;
/// A non-encapsulated union has `switch_type`, and each of its arms a label.
pub const CASES: u8 = 23;
/// A non-encapsulated union is used only with `switch_is`.
pub const USES_OF_UNIONS: u8 = 24;
/// Where `switch_is` may stand, and with which variable.
pub const SWITCH_IS: u8 = 25;
/// At most one class is in a list, and only on a pointer.
pub const CLASSES_ON_POINTERS: u8 = 26;
/// Each pointer has a class.
pub const CLASS_OF_EACH_POINTER: u8 = 27;
/// No pointer points to a reference pointer.
pub const NO_POINTER_TO_REFERENCE: u8 = 28;
/// A pointer parameter that is [out] alone is a reference pointer.
pub const OUT_POINTERS: u8 = 29;
/// Each parameter has `in` or `out`, or both.
pub const DIRECTIONS: u8 = 30;
/// What an [out] parameter may be.
pub const OUT_PARAMETERS: u8 = 31;
/// What the result of an operation may be.
pub const RESULTS: u8 = 32;
/// Where `string` may stand.
pub const TEXTS: u8 = 33;
/// Where `size_is` and `max_is` may stand.
pub const SIZES: u8 = 34;
/// Where `length_is`, `first_is` and `last_is` may stand.
pub const LENGTHS: u8 = 35;
/// The variable of an attribute is another member or parameter.
pub const VARIABLES: u8 = 36;
/// The variable of a size or length is an integer.
pub const INTEGER_VARIABLES: u8 = 37;
/// A constant has a value of its type.
pub const CONSTANTS: u8 = 38;
/// How many types, operations, parameters, members and arms there may be.
pub const COUNTS: u8 = 39;
