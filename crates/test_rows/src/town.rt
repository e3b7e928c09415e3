//! The example `examples/town`, as `examples/town/as_rows` prints it.

/// Its texts.
pub const TEXTS: &[(&str, &str)] = &[
    (
        "closing.nss",
        "\
// The merchant counts the day's coins. A division by zero ends the script where nothing was sold.
#include \"inc_town\"

int CoinsPerRound(object oMerchant, object oGuard)
{
    return GetLocalInt(oMerchant, VAR_COINS) / GetLocalInt(oGuard, \"round\");
}

void main()
{
    PrintString(\"the day: \" + Coins(GetLocalInt(OBJECT_SELF, VAR_COINS)));
    PrintInteger(CoinsPerRound(OBJECT_SELF, GetObjectByTag(\"GUARD\")));
    PrintInteger(CoinsPerRound(OBJECT_SELF, OBJECT_SELF));
    PrintString(\"not reached\");
}
",
    ),
    (
        "dawn.nss",
        "\
// Dawn: the guard hears of it, and an event that he doesn't know.
#include \"inc_town\"

void main()
{
    object oGuard = GetObjectByTag(\"GUARD\");
    event evDawn = EventUserDefined(EVENT_DAWN);
    SignalEvent(oGuard, evDawn);
    SignalEvent(oGuard, EventUserDefined(7));
}
",
    ),
    (
        "day.plan",
        "\
NWQ PLAN 2
; one day of the town, in a minute
limit 20000
until 60000
random 0 1 2 0 4 3
script hb_guard
script ud_guard
script patrol
script gate_open
script lamp
script dusk
script dawn
script shop_open
script shop_buy
script heal
script closing
start 0 - dawn
start 1000 0 shop_open MERCHANT
event 2000 0 OnOpen GATE
event 6000 0 ScriptHeartbeat GUARD
start 7000 0 shop_buy MERCHANT
start 8000 0 shop_buy MERCHANT
start 9000 0 shop_buy MERCHANT
event 12000 0 ScriptHeartbeat GUARD
event 18000 0 ScriptHeartbeat GUARD
start 29000 0 shop_buy MERCHANT
start 30000 - heal
start 40000 - dusk
start 50000 0 closing MERCHANT
",
    ),
    (
        "dusk.nss",
        "\
// Dusk: the lamps are lit, and the guard hears of it.
#include \"inc_town\"

void main()
{
    int nLamp;
    object oLamp;
    for (nLamp = 0; GetIsObjectValid(oLamp = GetObjectByTag(\"LAMP\", nLamp)); nLamp++)
        ExecuteScript(\"lamp\", oLamp);
    SignalEvent(GetObjectByTag(\"GUARD\"), EventUserDefined(EVENT_DUSK));
}
",
    ),
    (
        "gate_open.nss",
        "\
// The gate falls shut three seconds after it was opened, and its trap is sprung each third time.
#include \"inc_town\"

int nDamage = 2 + 4;

void Fall()
{
    PrintString(\"the gate falls shut\");
    SetLocked(OBJECT_SELF, TRUE);
}

void main()
{
    int nOpened = Add(OBJECT_SELF, \"opened\");
    DelayCommand(3000, Fall());
    if (nOpened % 3 == 1)
    {
        effect eWound = EffectDamage(nDamage, DAMAGE_TYPE_PIERCING);
        ApplyEffectToObject(DURATION_TYPE_PERMANENT, eWound, GetObjectByTag(\"GUARD\"));
    }
}
",
    ),
    (
        "hb_guard.nss",
        "\
// The guard's heartbeat: each second round a patrol, else a report half a second later. The
// report keeps the number of the round in which it was ordered.
#include \"inc_town\"

void Report(int nRound)
{
    SpeakString(\"Round \" + IntToString(nRound) + \": all is well.\");
}

void main()
{
    int nRound = Add(OBJECT_SELF, \"round\");
    if (nRound % 2 == 0)
    {
        ExecuteScript(\"patrol\");
        return;
    }
    DelayCommand(500, Report(nRound));
    nRound = -1;    // too late for the report
}
",
    ),
    (
        "heal.nss",
        "\
// The healer takes the wound of the gate's trap away.
#include \"inc_town\"

void main()
{
    object oGuard = GetObjectByTag(\"GUARD\");
    RemoveEffect(oGuard, EffectDamage(6, DAMAGE_TYPE_PIERCING));
    ApplyEffectToObject(DURATION_TYPE_INSTANT, EffectHeal(6), oGuard);
}
",
    ),
    (
        "inc_town.nss",
        "\
// What the scripts of the town share: events, names of variables, wares and small helpers.

const int    EVENT_DUSK = 100;
const int    EVENT_DAWN = 101;
const string VAR_STOCK  = \"stock\";
const string VAR_COINS  = \"coins\";

struct Ware
{
    string sName;
    int    nPrice;
    int    nStock;
};

// \"1 coin\", \"4 coins\"
string Coins(int nCoins)
{
    if (nCoins == 1) return \"1 coin\";
    return IntToString(nCoins) + \" coins\";
}

// a variable of an object goes up by so much; its new value
int Add(object oObject, string sVar, int nBy = 1)
{
    int nNew = GetLocalInt(oObject, sVar) + nBy;
    SetLocalInt(oObject, sVar, nNew);
    return nNew;
}

// a ware by its row in the price list, and what is left of it on the counter
struct Ware GetWare(object oCounter, int nRow)
{
    struct Ware stWare;
    stWare.sName  = Get2DAString(\"prices\", \"Name\", nRow);
    stWare.nPrice = StringToInt(Get2DAString(\"prices\", \"Price\", nRow));
    stWare.nStock = GetLocalInt(oCounter, VAR_STOCK + IntToString(nRow));
    return stWare;
}
",
    ),
    (
        "lamp.nss",
        "\
// A lamp burns for five seconds, and the next one a second longer: it counts how often it was lit.
#include \"inc_town\"

void main()
{
    int nLit = Add(OBJECT_SELF, \"lit\");
    ApplyEffectToObject(DURATION_TYPE_TEMPORARY, EffectVisualEffect(VFX_DUR_LIGHT_YELLOW_10),
        OBJECT_SELF, 4000 + 1000 * nLit);
}
",
    ),
    (
        "nwscript.nss",
        "\
// The engine header of the town, in the shape of a game's nwscript.nss: engine types, constants,
// and one declaration for each routine, whose number is its place in this file.

#define ENGINE_NUM_STRUCTURES   5
#define ENGINE_STRUCTURE_0      effect
#define ENGINE_STRUCTURE_1      event
#define ENGINE_STRUCTURE_2      location
#define ENGINE_STRUCTURE_3      talent
#define ENGINE_STRUCTURE_4      itemproperty

// Constants

int    TRUE                         = 1;
int    FALSE                        = 0;

float  DIRECTION_EAST               = 0.0;
float  DIRECTION_NORTH              = 90.0;
float  PI                           = 3.141592;

int    DURATION_TYPE_INSTANT        = 0;
int    DURATION_TYPE_TEMPORARY      = 1;
int    DURATION_TYPE_PERMANENT      = 2;

int    TALKVOLUME_TALK              = 0;
int    TALKVOLUME_WHISPER           = 1;
int    TALKVOLUME_SHOUT             = 2;

int    DAMAGE_TYPE_PIERCING         = 2;
int    DAMAGE_TYPE_MAGICAL          = 8;
int    DAMAGE_TYPE_FIRE             = 0x100;

int    VFX_DUR_LIGHT_YELLOW_10      = 153;
int    VFX_IMP_HEAD_HEAL            = 33;

int    INVALID_COUNT                = -1;
string NO_TAG                       = \"\";
object OBJECT_NONE                  = OBJECT_INVALID;

// Get an integer between 0 and nMaxInteger-1.
int Random(int nMaxInteger);
// Output sString to the log.
void PrintString(string sString);
// Output fFloat to the log.
void PrintFloat(float fFloat, int nWidth=18, int nDecimals=9);
// Convert fFloat into a string.
string FloatToString(float fFloat, int nWidth=18, int nDecimals=9);
// Output nInteger to the log.
void PrintInteger(int nInteger);
// Output oObject's number to the log.
void PrintObject(object oObject);
// Assign aActionToAssign to oActionSubject.
void AssignCommand(object oActionSubject, action aActionToAssign);
// Delay aActionToDelay by nMilliseconds.
void DelayCommand(int nMilliseconds, action aActionToDelay);
// Make oTarget run sScript at once.
void ExecuteScript(string sScript, object oTarget=OBJECT_SELF);
// Clear all the actions of the caller.
void ClearAllActions(int nClearCombatState=FALSE);
// Cause the caller to face fDirection.
void SetFacing(float fDirection);
// Add aActionToDo to the caller's queue.
void ActionDoCommand(action aActionToDo);
// Do nothing for nMilliseconds, as an action of the caller's queue.
void ActionWait(int nMilliseconds);
// Add a speech to the caller's queue.
void ActionSpeakString(string sStringToSpeak, int nTalkVolume=TALKVOLUME_TALK);
// The caller speaks at once.
void SpeakString(string sStringToSpeak, int nTalkVolume=TALKVOLUME_TALK);
// Get the nNth object with the specified tag.
object GetObjectByTag(string sTag, int nNth=0);
string GetTag(object oObject);
int GetIsObjectValid(object oObject);
vector GetPosition(object oTarget);
location GetLocation(object oObject);
vector Vector(float x=0.0f, float y=0.0f, float z=0.0f);
float GetDistanceBetween(object oObjectA, object oObjectB);
// Local variables.
int GetLocalInt(object oObject, string sVarName);
float GetLocalFloat(object oObject, string sVarName);
string GetLocalString(object oObject, string sVarName);
void SetLocalInt(object oObject, string sVarName, int nValue);
void SetLocalFloat(object oObject, string sVarName, float fValue);
void SetLocalString(object oObject, string sVarName, string sValue);
void DeleteLocalInt(object oObject, string sVarName);
void DeleteLocalString(object oObject, string sVarName);
// Effects.
void ApplyEffectToObject(int nDurationType, effect eEffect, object oTarget, int nMilliseconds=0);
void RemoveEffect(object oCreature, effect eEffect);
effect EffectDamage(int nDamageAmount, int nDamageType=DAMAGE_TYPE_MAGICAL, int nDamagePower=0);
effect EffectHeal(int nDamageToHeal);
effect EffectVisualEffect(int nVisualEffectId, int nMissEffect=FALSE);
itemproperty ItemPropertyLight(int nBrightness, int nColor);
// Doors and placeables.
void ActionOpenDoor(object oDoor);
void ActionCloseDoor(object oDoor);
void SetLocked(object oTarget, int bLocked);
// User-defined events.
event EventUserDefined(int nUserDefinedEventNumber);
void SignalEvent(object oObject, event evToRun);
int GetUserDefinedEventNumber();
// Numbers and strings.
int abs(int nValue);
float fabs(float fValue);
string IntToString(int nInteger);
int StringToInt(string sNumber);
string IntToHexString(int nInteger);
int GetStringLength(string sString);
string GetStringLeft(string sString, int nCount);
string GetStringRight(string sString, int nCount);
string GetSubString(string sString, int nStart, int nCount);
string InsertString(string sDestination, string sString, int nPosition);
// The cell of a 2DA table.
string Get2DAString(string s2DA, string sColumn, int nRow);
",
    ),
    (
        "patrol.nss",
        "\
// A patrol past all posts of the town, as actions of whoever runs it.

void Reach(object oPost, int nPost)
{
    PrintString(GetTag(OBJECT_SELF) + \" at post \" + IntToString(nPost));
    PrintObject(oPost);
}

void main()
{
    int nPost = 0;
    ClearAllActions();
    while (TRUE)
    {
        object oPost = GetObjectByTag(\"WP_POST\", nPost);
        if (!GetIsObjectValid(oPost)) break;
        nPost++;    // a delayed call keeps the value that a variable has now
        ActionDoCommand(Reach(oPost, nPost));
        ActionWait(1000);
    }
    ActionSpeakString(\"Nobody passed \" + IntToString(nPost) + \" posts.\");
}
",
    ),
    (
        "prices.2da",
        "\
2DA V2.0

   Name           Price  Stock
0  Lantern        4      2
1  \"Wool cloak\"   12     1
2  Rope           1      ****
",
    ),
    (
        "shop_buy.nss",
        "\
// A customer takes what chance gives him, and the merchant brings a new one later.
#include \"inc_town\"

void Restock(object oCounter, int nRow)
{
    Add(oCounter, VAR_STOCK + IntToString(nRow));
}

void Sell(object oCounter, int nRow, struct Ware stWare)
{
    Add(oCounter, VAR_STOCK + IntToString(nRow), -1);
    SpeakString(\"One \" + stWare.sName + \" for \" + Coins(stWare.nPrice) + \", and \"
        + Coins(Add(OBJECT_SELF, VAR_COINS, stWare.nPrice)) + \" in the box.\");
    DelayCommand(20000, Restock(oCounter, nRow));
}

void main()
{
    object oCounter = GetObjectByTag(\"COUNTER\");
    int nRow = Random(GetLocalInt(oCounter, \"rows\"));
    struct Ware stWare = GetWare(oCounter, nRow);
    if (stWare.nStock > 0)
        Sell(oCounter, nRow, stWare);
    else
        SpeakString(\"No \" + stWare.sName + \" today.\");
}
",
    ),
    (
        "shop_open.nss",
        "\
// The merchant fills the counter from the price list. The list ends at the first row without name.
#include \"inc_town\"

void main()
{
    object oCounter = GetObjectByTag(\"COUNTER\");
    int nRow = 0;
    do
    {
        SetLocalInt(oCounter, VAR_STOCK + IntToString(nRow),
            StringToInt(Get2DAString(\"prices\", \"Stock\", nRow)));
    }
    while (Get2DAString(\"prices\", \"Name\", ++nRow) != \"\");
    SetLocalInt(oCounter, \"rows\", nRow);
    SpeakString(\"The shop is open, with \" + IntToString(nRow) + \" wares.\");
}
",
    ),
    (
        "ud_guard.nss",
        "\
// The guard's user-defined events.
#include \"inc_town\"

void main()
{
    switch (GetUserDefinedEventNumber())
    {
        case EVENT_DUSK:
            SpeakString(\"Close the gate!\", TALKVOLUME_SHOUT);
            AssignCommand(GetObjectByTag(\"GATE\"), ActionCloseDoor(OBJECT_SELF));
            break;
        case EVENT_DAWN:
            SpeakString(\"Open the gate!\", TALKVOLUME_SHOUT);
            AssignCommand(GetObjectByTag(\"GATE\"), ActionOpenDoor(OBJECT_SELF));
            break;
        default:
            PrintString(\"an event that the guard doesn't know\");
    }
}
",
    ),
    (
        "tables.txt",
        "\
prices
",
    ),
];

/// Its area.
pub const AREA: &[u8] = b"\
    GIT\x20V3.28\0\0\0\x0b\0\0\0\xbc\0\0\0$\0\0\0l\x02\0\0\x10\0\0\0l\x03\0\0\xcb\0\0\0\x37\
    \x04\0\0\x88\0\0\0\xbf\x04\0\0@\0\0\0\xff\xff\xff\xff\0\0\0\0\x04\0\0\0\x04\0\0\0\x10\0\0\
    \0\x07\0\0\0\0\0\0\0,\0\0\0\x03\0\0\0\x04\0\0\0\x38\0\0\0\x06\0\0\0\x08\0\0\0P\0\0\0\x04\0\
    \0\0\x09\0\0\0`\0\0\0\x02\0\0\0\x09\0\0\0h\0\0\0\x03\0\0\0\0\0\0\0t\0\0\0\x03\0\0\0\x09\0\
    \0\0\x80\0\0\0\x02\0\0\0\x05\0\0\0\"\0\0\0\x01\0\0\0\x05\0\0\0#\0\0\0\x01\0\0\0\x0f\0\0\0\
    \0\0\0\0\0\0\0\0\x0f\0\0\0\x01\0\0\0\x0c\0\0\0\x0f\0\0\0\x02\0\0\0\x14\0\0\0\x0f\0\0\0\x03\
    \0\0\0$\0\0\0\x0a\0\0\0\x04\0\0\0\0\0\0\0\x0b\0\0\0\x05\0\0\0\x09\0\0\0\x08\0\0\0\x06\0\0\
    \0\0\0HA\x08\0\0\0\x07\0\0\0\0\0\x80@\x0b\0\0\0\x08\0\0\0\x14\0\0\0\x0b\0\0\0\x09\0\0\0\
    \x1d\0\0\0\x0f\0\0\0\x0a\0\0\0\x30\0\0\0\x0a\0\0\0\x0b\0\0\0&\0\0\0\x04\0\0\0\x0c\0\0\0\
    \x03\0\0\0\x0a\0\0\0\x0d\0\0\0.\0\0\0\x0a\0\0\0\x04\0\0\0<\0\0\0\x0b\0\0\0\x05\0\0\0H\0\0\
    \0\x08\0\0\0\x06\0\0\0\0\0\xa0A\x08\0\0\0\x07\0\0\0\0\0\0A\x0b\0\0\0\x08\0\0\0V\0\0\0\x0b\
    \0\0\0\x09\0\0\0W\0\0\0\x0a\0\0\0\x04\0\0\0X\0\0\0\x0b\0\0\0\x05\0\0\0`\0\0\0\x0b\0\0\0\
    \x0e\0\0\0j\0\0\0\x0b\0\0\0\x0f\0\0\0t\0\0\0\x0a\0\0\0\x04\0\0\0u\0\0\0\x0b\0\0\0\x05\0\0\
    \0}\0\0\0\x0a\0\0\0\x04\0\0\0\x86\0\0\0\x0b\0\0\0\x05\0\0\0\x8e\0\0\0\x0f\0\0\0\x0a\0\0\0\
    \x38\0\0\0\x0a\0\0\0\x0b\0\0\0\x97\0\0\0\x04\0\0\0\x0c\0\0\0\x01\0\0\0\x05\0\0\0\x0d\0\0\0\
    \x01\0\0\0\x0a\0\0\0\x04\0\0\0\x9e\0\0\0\x0b\0\0\0\x05\0\0\0\xa9\0\0\0\x0a\0\0\0\x04\0\0\0\
    \xb5\0\0\0\x0a\0\0\0\x04\0\0\0\xc0\0\0\0Creature\x20List\0\0\0Door\x20List\0\0\0\0\0\0\0Pl\
    aceable\x20List\0\0WaypointList\0\0\0\0Tag\0\0\0\0\0\0\0\0\0\0\0\0\0TemplateResRef\0\0XPos\
    ition\0\0\0\0\0\0\0YPosition\0\0\0\0\0\0\0ScriptHeartbeat\0ScriptUserDefineVarTable\0\0\0\
    \0\0\0\0\0Name\0\0\0\0\0\0\0\0\0\0\0\0Type\0\0\0\0\0\0\0\0\0\0\0\0Value\0\0\0\0\0\0\0\0\0\
    \0\0OnOpen\0\0\0\0\0\0\0\0\0\0OnClosed\0\0\0\0\0\0\0\0\x05\0\0\0GUARD\x0atown_guard\x08hb_\
    guard\x08ud_guard\x04\0\0\0post\x0a\0\0\0north\x20gate\x08\0\0\0MERCHANT\x0dtown_merchant\
    \0\0\x04\0\0\0GATE\x09town_gate\x09gate_open\0\x04\0\0\0LAMP\x08plc_lamp\x04\0\0\0LAMP\x08\
    plc_lamp\x03\0\0\0lit\x07\0\0\0COUNTER\x0bplc_counter\x07\0\0\0WP_POST\x07\0\0\0WP_POST\0\
    \0\0\0\x01\0\0\0\x02\0\0\0\x03\0\0\0\x04\0\0\0\x05\0\0\0\x06\0\0\0\x07\0\0\0\x08\0\0\0\x09\
    \0\0\0\x0a\0\0\0\x0b\0\0\0\x0c\0\0\0\x0d\0\0\0\x0e\0\0\0\x0f\0\0\0\x10\0\0\0\x11\0\0\0\x12\
    \0\0\0\x13\0\0\0\x14\0\0\0\x15\0\0\0\x16\0\0\0\x17\0\0\0\x18\0\0\0\x19\0\0\0\x1a\0\0\0\x1b\
    \0\0\0\x1c\0\0\0\x1d\0\0\0\x1e\0\0\0\x1f\0\0\0\x20\0\0\0!\0\0\0\x02\0\0\0\x01\0\0\0\x03\0\
    \0\0\x01\0\0\0\x04\0\0\0\x03\0\0\0\x05\0\0\0\x06\0\0\0\x08\0\0\0\x02\0\0\0\x09\0\0\0\x0a\0\
    \0\0\x01\0\0\0\x02\0\0\0\x01\0\0\0\x07\0\0\0";

/// What its play prints.
pub const PLAYED: &str = "\
0 #1 speak Open the gate!
0 #1 print an event that the guard doesn't know
0 #3 call ActionOpenDoor(#3)
1000 #2 speak The shop is open, with 3 wares.
2000 #3 call EffectDamage(6,2,0)
2000 #1 apply 2 32(6,2,0)
5000 #3 print the gate falls shut
5000 #3 call SetLocked(#3,1)
6500 #1 speak Round 1: all is well.
7000 #2 speak One Lantern for 4 coins, and 4 coins in the box.
8000 #2 speak One Wool cloak for 12 coins, and 16 coins in the box.
9000 #2 speak No Rope today.
12000 #1 print GUARD at post 1
12000 #1 print #7
13000 #1 print GUARD at post 2
13000 #1 print #8
14000 #1 speak Nobody passed 2 posts.
18500 #1 speak Round 3: all is well.
29000 #2 speak One Lantern for 4 coins, and 20 coins in the box.
30000 #0 call EffectDamage(6,2,0)
30000 #1 remove 32(6,2,0)
30000 #0 call EffectHeal(6)
30000 #1 apply 0 33(6)
40000 #4 call EffectVisualEffect(153,0)
40000 #4 apply 1 34(153,0)
40000 #5 call EffectVisualEffect(153,0)
40000 #5 apply 1 34(153,0)
40000 #1 speak Close the gate!
40000 #3 call ActionCloseDoor(#3)
45000 #4 expire 34(153,0)
46000 #5 expire 34(153,0)
50000 #2 print the day: 20 coins
50000 #2 print 6
50000 #2 fault divide
end done clock 50000 entries 31 instructions 1185
";
