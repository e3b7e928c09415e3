//! The numbers of the engine's own routines in the built-in header, by their names there.

pub(crate) const RANDOM: u16 = 0;

pub(crate) const PRINT_STRING: u16 = 1;

pub(crate) const PRINT_INTEGER: u16 = 4;

pub(crate) const PRINT_OBJECT: u16 = 5;

pub(crate) const ASSIGN_COMMAND: u16 = 6;

pub(crate) const DELAY_COMMAND: u16 = 7;

pub(crate) const CLEAR_ALL_ACTIONS: u16 = 9;

pub(crate) const ACTION_DO_COMMAND: u16 = 10;

pub(crate) const ACTION_WAIT: u16 = 11;

pub(crate) const ACTION_SPEAK_STRING: u16 = 12;

pub(crate) const SPEAK_STRING: u16 = 13;

pub(crate) const GET_OBJECT_BY_TAG: u16 = 14;

pub(crate) const GET_TAG: u16 = 15;

pub(crate) const GET_IS_OBJECT_VALID: u16 = 16;

pub(crate) const GET_LOCAL_INT: u16 = 17;

pub(crate) const SET_LOCAL_INT: u16 = 18;

pub(crate) const GET_LOCAL_STRING: u16 = 19;

pub(crate) const SET_LOCAL_STRING: u16 = 20;

pub(crate) const DELETE_LOCAL_INT: u16 = 21;

pub(crate) const DELETE_LOCAL_STRING: u16 = 22;

pub(crate) const APPLY_EFFECT_TO_OBJECT: u16 = 23;

pub(crate) const REMOVE_EFFECT: u16 = 24;

pub(crate) const EVENT_USER_DEFINED: u16 = 38;

pub(crate) const SIGNAL_EVENT: u16 = 39;

pub(crate) const GET_USER_DEFINED_EVENT_NUMBER: u16 = 40;
