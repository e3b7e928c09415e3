ghost use Rattle.std.specs.Prelude.{◌≡◌};
ghost use Rattle.nwq_value.specs.Header.{header_text};
ghost use Rattle.nwq_value.specs.Roles.{BuiltAsHeader, HeaderAsRole, PureAsHeader};
ghost use Rattle.nwq_value.specs.Roles.{UncallableIsBarred, WorldIsCallable};

/// The built-in header, as a script's header is written.
pub static BUILT_IN: &[u8] = b"#define ENGINE_NUM_STRUCTURES 4\n\
#define ENGINE_STRUCTURE_0 effect\n\
#define ENGINE_STRUCTURE_1 event\n\
#define ENGINE_STRUCTURE_2 location\n\
#define ENGINE_STRUCTURE_3 talent\n\
int TRUE = 1;\n\
int FALSE = 0;\n\
int DURATION_TYPE_INSTANT = 0;\n\
int DURATION_TYPE_TEMPORARY = 1;\n\
int DURATION_TYPE_PERMANENT = 2;\n\
int Random(int nMaxInteger);\n\
void PrintString(string sString);\n\
void PrintFloat(float fFloat, int nWidth=18, int nDecimals=9);\n\
string FloatToString(float fFloat, int nWidth=18, int nDecimals=9);\n\
void PrintInteger(int nInteger);\n\
void PrintObject(object oObject);\n\
void AssignCommand(object oActionSubject, action aActionToAssign);\n\
void DelayCommand(int nMilliseconds, action aActionToDelay);\n\
void ExecuteScript(string sScript, object oTarget=OBJECT_SELF);\n\
void ClearAllActions(int nClearCombatState=FALSE);\n\
void ActionDoCommand(action aActionToDo);\n\
void ActionWait(int nMilliseconds);\n\
void ActionSpeakString(string sStringToSpeak, int nTalkVolume=0);\n\
void SpeakString(string sStringToSpeak, int nTalkVolume=0);\n\
object GetObjectByTag(string sTag, int nNth=0);\n\
string GetTag(object oObject);\n\
int GetIsObjectValid(object oObject);\n\
int GetLocalInt(object oObject, string sVarName);\n\
void SetLocalInt(object oObject, string sVarName, int nValue);\n\
string GetLocalString(object oObject, string sVarName);\n\
void SetLocalString(object oObject, string sVarName, string sValue);\n\
void DeleteLocalInt(object oObject, string sVarName);\n\
void DeleteLocalString(object oObject, string sVarName);\n\
void ApplyEffectToObject(int nDurationType, effect eEffect, object oTarget, int nMilliseconds=0);\n\
void RemoveEffect(object oCreature, effect eEffect);\n\
effect EffectDamage(int nDamageAmount, int nDamageType=8, int nDamagePower=0);\n\
effect EffectHeal(int nDamageToHeal);\n\
void SetCommandable(int bCommandable, object oTarget=OBJECT_SELF);\n\
int abs(int nValue);\n\
string IntToString(int nInteger);\n\
int StringToInt(string sNumber);\n\
string IntToHexString(int nInteger);\n\
int GetStringLength(string sString);\n\
string GetStringLeft(string sString, int nCount);\n\
string GetStringRight(string sString, int nCount);\n\
string GetSubString(string sString, int nStart, int nCount);\n\
string InsertString(string sDestination, string sString, int nPosition);\n\
string Get2DAString(string s2DA, string sColumn, int nRow);\n\
event EventUserDefined(int nUserDefinedEventNumber);\n\
void SignalEvent(object oObject, event evToRun);\n\
int GetUserDefinedEventNumber();\n";

/// The text is what the definition of the header writes.
pub fn built_in_is_the_header()
    ensures text { BUILT_IN.now ≡ header_text }
{}

/// What a role tells: `Built` and `Pure` come from the header's row of that number alone, with its
/// name and its types, and each row gives its role; a world function has only values that a call
/// can pass and give, an uncallable one has not.
pub fn roles_tell()
    ensures built { BuiltAsHeader }
    ensures hooks { PureAsHeader }
    ensures rows { HeaderAsRole }
    ensures world { WorldIsCallable }
    ensures uncallable { UncallableIsBarred }
{}
