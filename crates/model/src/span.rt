//! The ranges of the numbers that requests and questions name.
use crate::request::Span;

/// A role.
pub const ROLE: Span = Span::Within(0, 31);

/// A session or an entity.
pub const ITEM: Span = Span::Within(1, 255);

pub const ENTITY: Span = Span::Within(64, 255);

pub const SESSION: Span = Span::Within(1, 63);

/// A level, or a set of badges, in any order.
pub const LEVEL: Span = Span::Within(0, 65535);

/// A container's mark.
pub const MARK: Span = Span::Within(0, 3);

pub const NONE: Span = Span::Unused;
